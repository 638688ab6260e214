// Turns the district's file from standard input into its text, and prints that, or what refuses the file and where. No more
// than 4,096 bytes are read.
#![tactic(auto)]

ghost use Rattle.std.specs.Prelude.{◌≡◌, ◌≤◌, OnOk, length};
ghost use Rattle.base.specs.Text.{Put};
ghost use Rattle.input.specs.Reading.{most_read, Prints};
ghost use Rattle.texts.specs.Programs.{unpacked};
ghost use Rattle.texts.specs.Promises.{longest_printed};

use input::MOST_READ;
use std::io;
use std::io::{Read, Write};
use texts::LONGEST_PRINTED;

// What is printed for a file, to the front of `out`, where that is as long as the longest text. It is lent as a slice, since the
// type of a closure names no array whose length is a parameter.
#[tactic(auto, using(base::proofs::Text::put_within))]
fn answer(file: &[u8], out: &mut [u8]) -> usize
    ensures within { result ≤ length out.new }
    ensures put { length out.old ≡ longest_printed → Put (unpacked file.now) out.old out.new result }
{
    match out.as_mut_array() {
        Some(out) => texts::unpack(file, out),
        None => 0,
    }
}

// What is printed for the first bytes of the input goes to the output. The programs of this kind are one call each: what a
// program has of its own is what it answers, by its contract, and the room for it.
fn run<R: Read, W: Write>(input: &mut R, output: &mut W) -> io::Result<()>
    ensures { OnOk result (Prints unpacked most_read (R.remaining input.old) (W.contents output.old) (W.contents output.new)) }
{
    input::answered::<MOST_READ, LONGEST_PRINTED, _, _, _>(input, output, answer)
}

fn main(rt: HostRuntime) -> io::Result<()> {
    run(&mut rt.stdin(), &mut rt.stdout())
}
