// Plans the district whose file comes from standard input, and prints the programme, or the refusal. No more than
// 4,096 bytes are read.
#![tactic(auto)]

ghost use Rattle.std.specs.Prelude.{◌≤◌, OnOk, length};
ghost use Rattle.base.specs.Text.{Put};
ghost use Rattle.input.specs.Reading.{most_read, Prints};
ghost use Rattle.listing.specs.Listing.{longest_listing};
ghost use Rattle.plan.specs.Printed.{printed};

use input::MOST_READ;
use listing::LONGEST_LISTING;
use rules::places::{DISTRICT_PLACES, SEGMENT_COUNT};
use std::io;
use std::io::{Read, Write};

// What is printed for a file, to the front of `out`.
#[tactic(auto, unfolding(crate::specs::Printed::printed, listing::specs::Listing::planned, listing::specs::Listing::shown))]
fn answer(file: &[u8], out: &mut [u8]) -> usize
    requires { longest_listing ≤ length out.old }
    ensures { Put (printed file.now) out.old out.new result }
{
    let mut d = [0usize; DISTRICT_PLACES];
    match unit::plan_file(file, &mut d) {
        Ok(p) => listing::put_listing(out, &p, d[SEGMENT_COUNT]),
        Err(refusal) => listing::put_refusal(out, refusal),
    }
}

// What is printed for the first bytes of the input goes to the output. The programs of this kind are one call each: what a
// program has of its own is what it answers, by its contract, and the room for it.
#[tactic(auto, using(base::proofs::Text::put_within))]
fn run<R: Read, W: Write>(input: &mut R, output: &mut W) -> io::Result<()>
    ensures { OnOk result (Prints printed most_read (R.remaining input.old) (W.contents output.old) (W.contents output.new)) }
{
    input::answered::<MOST_READ, LONGEST_LISTING, _, _, _>(input, output, answer)
}

fn main(rt: HostRuntime) -> io::Result<()> {
    run(&mut rt.stdin(), &mut rt.stdout())
}
