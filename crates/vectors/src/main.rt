// Runs cases that were worked elsewhere. Standard input holds frames, and each frame a list of calls as script reads it.
// For each, standard output gets the refusal of its last call or, where that is accepted, the programme of the office that
// it named.
// A frame that is cut short or longer than 65,536 ends the run, and so does a read that fails.
#![tactic(auto)]

ghost use Rattle.std.specs.Prelude.{◌≤◌, IfOk, length};
ghost use Rattle.base.specs.Text.{Put};
ghost use Rattle.frames.specs.Frames.{Answers};
ghost use Rattle.listing.specs.Listing.{longest_listing};
ghost use Rattle.vectors.specs.Worked.{worked};

use listing::LONGEST_LISTING;
use rules::Which;
use std::io;
use std::io::{Read, Write};

// What is printed for a list of calls, to the front of `out`.
fn answer(script: &[u8], out: &mut [u8]) -> usize
    requires { longest_listing ≤ length out.old }
    ensures { Put (worked script.now) out.old out.new result }
{
    let ran = script::run(script);
    match Which::try_from(ran.office) {
        Ok(w) => listing::put_planned(out, ran.answer, &station::own(&ran.desk.station, w).unit),
        Err(refusal) => listing::put_refusal(out, refusal),
    }
}

// What is printed for each frame of the input goes to the output. One call, as transcode has it: its own is what a frame is
// answered, and the room for it.
#[tactic(auto, using(base::proofs::Text::put_within))]
fn run<R: Read, W: Write>(input: &mut R, output: &mut W) -> io::Result<Option<io::Error>>
    ensures { IfOk result (λ failed. Answers worked failed (R.remaining input.old) (R.remaining input.new) (W.contents output.old) (W.contents output.new)) }
{
    frames::answered::<LONGEST_LISTING, _, _, _>(input, output, answer)
}

// A read that fails ends the run as the end of the input does, and its error is dropped.
fn main(rt: HostRuntime) -> io::Result<()> {
    run(&mut rt.stdin(), &mut rt.stdout())?;
    Ok(())
}
