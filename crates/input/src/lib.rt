// Reading until there is no room left, or the input ends, and a program that answers what it read.
#![tactic(auto)]

ghost use Rattle.std.specs.Prelude.{◌≡◌, ℕ, ◌<◌, ◌≤◌, ◌^◌, List, IfOk, IfErr, OnOk, IfSome, length, take};
ghost use Rattle.std.specs.Io.KnownBytes.{Consumes, IsAtEnd};
ghost use Rattle.std.specs.Io.{ReadsAtMost};
ghost use Rattle.base.specs.Text.{Put};
ghost use Rattle.input.specs.Reading.{Prints};

use std::io;
use std::io::{Read, Write};

// No more is read of a file.
pub const MOST_READ: usize = 4096;

// Reads until the space is full or the input ends, and returns how many bytes stand at its front. The first read that
// fails ends it, with that error; what was read before, too little to fill the space, stands at its front then too.
pub fn read_full<R: Read>(input: &mut R, space: &mut [u8]) -> io::Result<usize>
    ensures bound { ReadsAtMost result space.new }
    ensures front { IfOk result (λ n. IfSome (R.remaining input.old) (λ bytes. take n space.new ≡ take (length space.old) bytes)) }
    ensures bytes { IfOk result (λ n. Consumes (R.remaining input.old) (R.remaining input.new) (take n space.new)) }
    ensures end { IfOk result (λ n. n < length space.old → IsAtEnd (R.remaining input.new)) }
    ensures failed { IfErr result (λ _. (n : ℕ) × (n < length space.old) × Consumes (R.remaining input.old) (R.remaining input.new) (take n space.new)) }
{
    let mut done: usize = 0;
    // Each read goes behind what those before it gave, and no one knows how many it takes. The library's `read_exact` says
    // nothing of a shorter input, its `read_to_end` puts the bytes into a Vec, which is on a heap, and of an `io::copy` from a
    // `take` no clause says what is left of the input behind it.
    while done < space.len() {
        match input.read(&mut space[done..]) {
            Ok(0) => return Ok(done),
            Ok(n) => done += n,
            Err(error) => return Err(error),
        }
    }
    Ok(done)
}

// What `answer` puts to the front of its buffer for the first bytes of the input goes to the output. Of an error nothing is
// said: it is a read's or a write's, and the library says nothing of what `write_all` wrote before it failed.
pub fn answered<
    const READ: usize,
    const SPACE: usize,
    R: Read,
    W: Write,
    F: Fn(&[u8], &mut [u8]) -> usize,
>(input: &mut R, output: &mut W, answer: F) -> io::Result<()>
    requires sizes { (READ < 2 ^ 63) × (SPACE < 2 ^ 63) }
    requires callable { (file : _) (out : _) → length out.now ≡ SPACE → F.pre answer file out }
    requires within { (file : _) (out : _) (n : ℕ) (after : _) → length after.now ≡ SPACE → F.post answer file out n after → n ≤ SPACE }
    ensures { (print : List ℕ → List ℕ) → ((file : _) (out : _) (n : ℕ) (after : _) → length out.now ≡ SPACE → F.post answer file out n after → Put (print file.now) out.now after.now n) → OnOk result (Prints print READ (R.remaining input.old) (W.contents output.old) (W.contents output.new)) }
{
    let mut file = [0u8; READ];
    let n = read_full(input, &mut file)?;
    let mut out = [0u8; SPACE];
    let length = answer(&file[..n], &mut out);
    output.write_all(&out[..length])
}
