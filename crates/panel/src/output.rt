// Where the answers go.
ghost use Rattle.std.specs.Prelude.{◌≡◌, None, OnOk};
ghost use Rattle.std.specs.Io.KnownBytes.{Appends};

use std::io;
use std::io::Write;

// A writer, and what went wrong first. A write that fails keeps no command from being carried out, and is told of at
// the end.
#[derive(Drop)]
pub struct Output<W> {
    writer: W,
    failure: Option<io::Error>,
}

impl<W: Write> Output<W> {
    pub fn new(writer: W) -> Output<W>
        ensures writer { result.writer ≡ writer }
        ensures failure { result.failure ≡ None }
    {
        Output {
            writer,
            failure: None,
        }
    }

    // While nothing went wrong, the writer holds all that was put.
    pub fn put(&mut self, bytes: &[u8])
        ensures put { self.new.failure ≡ None → Appends (W.contents self.old.writer) (W.contents self.new.writer) bytes.now }
        ensures first { self.new.failure ≡ None → self.old.failure ≡ None }
    {
        if let Err(e) = self.writer.write_all(bytes) {
            self.failure.get_or_insert(e);
        }
    }
}

impl<W: Drop> Output<W> {
    // What went wrong first, if anything did.
    pub fn close(self) -> io::Result<()>
        ensures { OnOk result (self.failure ≡ None) }
    {
        self.failure.map_or(Ok(()), Err)
    }
}
