// Turns the file from standard input into the form with leaders, of which none is set, and prints the new file, or the
// refusal. No more than 4,096 bytes are read.
#![tactic(auto)]

ghost use Rattle.std.specs.Prelude.{◌≤◌, OnOk, length};
ghost use Rattle.base.specs.Text.{Put};
ghost use Rattle.rules.specs.File.{longest_file};
ghost use Rattle.input.specs.Reading.{most_read, Prints};
ghost use Rattle.convert.specs.Printed.{up_printed};

use input::MOST_READ;
use rules::records::LONGEST_FILE;
use std::io;
use std::io::{Read, Write};

// What is printed for a file, to the front of `out`.
fn answer(file: &[u8], out: &mut [u8]) -> usize
    requires { longest_file ≤ length out.old }
    ensures { Put (up_printed file.now) out.old out.new result }
{
    let answer = convert::up(file, out);
    convert::put_answer(out, answer)
}

// What is printed for the first bytes of the input goes to the output. The programs of this kind are one call each: what a
// program has of its own is what it answers, by its contract, and the room for it.
#[tactic(auto, using(base::proofs::Text::put_within))]
fn run<R: Read, W: Write>(input: &mut R, output: &mut W) -> io::Result<()>
    ensures { OnOk result (Prints up_printed most_read (R.remaining input.old) (W.contents output.old) (W.contents output.new)) }
{
    input::answered::<MOST_READ, LONGEST_FILE, _, _, _>(input, output, answer)
}

fn main(rt: HostRuntime) -> io::Result<()> {
    run(&mut rt.stdin(), &mut rt.stdout())
}
