// Turns the district's text from standard input into its file, and prints that, or the first complaint. No more than
// 65,537 bytes are read.
#![tactic(auto)]

ghost use Rattle.std.specs.Prelude.{◌≡◌, ◌≤◌, OnOk, length};
ghost use Rattle.base.specs.Text.{Put};
ghost use Rattle.rules.specs.File.{longest_file};
ghost use Rattle.input.specs.Reading.{Prints};
ghost use Rattle.texts.specs.Programs.{most_text_read, packed};

use rules::records::LONGEST_FILE;
use std::io;
use std::io::{Read, Write};
use texts::MOST_TEXT_READ;

// What is printed for a text, to the front of `out`, where that is as long as the longest file. It is lent as a slice, since the
// type of a closure names no array whose length is a parameter.
#[tactic(auto, using(base::proofs::Text::put_within))]
fn answer(text: &[u8], out: &mut [u8]) -> usize
    ensures within { result ≤ length out.new }
    ensures put { length out.old ≡ longest_file → Put (packed text.now) out.old out.new result }
{
    match out.as_mut_array() {
        Some(out) => texts::pack(text, out),
        None => 0,
    }
}

// What is printed for the first bytes of the input goes to the output. The programs of this kind are one call each: what a
// program has of its own is what it answers, by its contract, and the room for it.
fn run<R: Read, W: Write>(input: &mut R, output: &mut W) -> io::Result<()>
    ensures { OnOk result (Prints packed most_text_read (R.remaining input.old) (W.contents output.old) (W.contents output.new)) }
{
    input::answered::<MOST_TEXT_READ, LONGEST_FILE, _, _, _>(input, output, answer)
}

fn main(rt: HostRuntime) -> io::Result<()> {
    run(&mut rt.stdin(), &mut rt.stdout())
}
