// Prints the page of the district whose file comes from standard input, with its programme, or the refusal. No more
// than 4,096 bytes are read.
#![tactic(auto)]

ghost use Rattle.std.specs.Prelude.{◌≤◌, OnOk, length};
ghost use Rattle.base.specs.Text.{Put};
ghost use Rattle.input.specs.Reading.{most_read, Prints};
ghost use Rattle.pages.specs.Printed.{longest_page};
ghost use Rattle.page.specs.Printed.{printed};

use input::MOST_READ;
use pages::LONGEST_PAGE;
use std::io;
use std::io::{Read, Write};

// What is printed for a file, to the front of `out`.
#[tactic(auto, unfolding(crate::specs::Printed::printed, pages::specs::Printed::paged))]
fn answer(file: &[u8], out: &mut [u8]) -> usize
    requires { longest_page ≤ length out.old }
    ensures { Put (printed file.now) out.old out.new result }
{
    pages::put_paged(out, &unit::of_file(file))
}

// What is printed for the first bytes of the input goes to the output. The programs of this kind are one call each: what a
// program has of its own is what it answers, by its contract, and the room for it.
#[tactic(auto, using(base::proofs::Text::put_within))]
fn run<R: Read, W: Write>(input: &mut R, output: &mut W) -> io::Result<()>
    ensures { OnOk result (Prints printed most_read (R.remaining input.old) (W.contents output.old) (W.contents output.new)) }
{
    input::answered::<MOST_READ, LONGEST_PAGE, _, _, _>(input, output, answer)
}

fn main(rt: HostRuntime) -> io::Result<()> {
    run(&mut rt.stdin(), &mut rt.stdout())
}
