// A file turned from one form into the other: up, to the form with leaders, of which none is set, and down, to the
// one without. Both settle any bytes and any buffer.
#![tactic(auto)]

ghost use Rattle.std.specs.Prelude.{◌≡◌, ◌≤◌, length};
ghost use Rattle.rules.specs.Answers.{answer_in};
ghost use Rattle.rules.specs.Conversions.{up_of, down_of};
ghost use Rattle.listing.specs.Listing.{longest_refusal};
ghost use Rattle.convert.specs.Printed.{Told};
ghost use Rattle.convert.specs.Returns.{UpAndDown, DownAndUp};

use grammar::Form;
use rules::{Answer, Refusal};

// The contract also says that down gives the file back, and that both load alike.
pub fn up(file: &[u8], out: &mut [u8]) -> Answer
    ensures same { record { answer = answer_in result; buffer = out.new } ≡ up_of file.now out.old }
    ensures back { UpAndDown file.now }
{
    let d = file::load_as(Form::Plain, file)?;
    file::export_as(Form::Leaders, &d, out)
}

// The contract also says that up gives the file back, and that both load alike. A leader that would be lost is refused.
pub fn down(file: &[u8], out: &mut [u8]) -> Answer
    ensures same { record { answer = answer_in result; buffer = out.new } ≡ down_of file.now out.old }
    ensures back { DownAndUp file.now }
{
    let d = file::load_as(Form::Leaders, file)?;
    if !file::forms::is_leaderless(&d) {
        return Err(Refusal::LeaderSet);
    }
    file::export_as(Form::Plain, &d, out)
}

// How much of the buffer is to be printed, where up or down left its answer: the new file, which stands there, or
// the refusal. Tried with `unwrap_or_else`: its clause says nothing of a closure that is not called, and so nothing of the
// buffer that it holds.
#[tactic(auto, unfolding(crate::specs::Printed::Told))]
pub fn put_answer(out: &mut [u8], answer: Answer) -> usize
    requires { longest_refusal ≤ length out.old }
    ensures { Told (answer_in answer) out.old out.new result }
{
    match answer {
        Ok(length) => length,
        Err(refusal) => listing::put_refusal(out, refusal),
    }
}
