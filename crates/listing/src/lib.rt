// What the programs print, written to the front of a lent buffer. Each writer takes what remains of the buffer, and
// says how many bytes it wrote. No Display: the programs have no heap, and a contract says which bytes the buffer holds. No
// ArrayVec: its capacity is in its type, so each writer would have it as a parameter, and would ask for the room that is left
// as now. No struct of buffer and length: its clauses would tell of the bytes before as well, which a writer here is not lent.
#![tactic(auto)]

ghost use Rattle.std.specs.Prelude.{◌≡◌, ◌+◌, ◌≤◌, length, take};
ghost use Rattle.base.specs.Text.{decimal, Writes, Put};
ghost use Rattle.listing.specs.Listing.{named, ended, line, segment_line, segment_lines, steps_line, results, listing, shown, refusal as refusal_line, done, carried, stepped_in, planned, valued, pair_line, over_line, reason_line, explained, told, failed, longest_refusal, longest_stepped, longest_reason, longest_roughness, longest_listing};
ghost use Rattle.rules.specs.Answers.{refusal_number, answer_in};

use rules::places::{MOST_SEGMENTS, SEGMENT_COUNT};
use rules::{Answer, Console, Programme, Reason, Refusal, Roughness, Unit};

// The most bytes of a listing: a line for each segment, with two numbers of up to 20 digits, and the results.
pub const LONGEST_LISTING: usize = 42 * MOST_SEGMENTS + 127;

pub fn put(out: &mut [u8], bytes: &[u8]) -> usize
    requires { length bytes.now ≤ length out.old }
    ensures { Put bytes.now out.old out.new result }
{
    let n = bytes.len();
    out[..n].copy_from_slice(bytes);
    n
}

// The digits of its tenth, then the last one.
pub fn put_number(out: &mut [u8], value: usize) -> usize
    requires { length (decimal value) ≤ length out.old }
    ensures put { Put (decimal value) out.old out.new result }
    ensures writes { Writes (take result out.new) value }
{
    if value < 10 {
        out[0] = b'0' + value as u8;
        return 1;
    }
    let at = put_number(out, value / 10);
    out[at] = b'0' + (value % 10) as u8;
    at + 1
}

// A word and a number, the same with an end behind them, and as a line.
#[tactic(auto, unfolding(crate::specs::Listing::named))]
pub fn put_named(out: &mut [u8], word: &[u8], value: usize) -> usize
    requires { length (named word.now value) ≤ length out.old }
    ensures { Put (named word.now value) out.old out.new result }
{
    let at = put(out, word);
    at + put_number(&mut out[at..], value)
}

#[tactic(auto, unfolding(crate::specs::Listing::ended))]
fn put_ended(out: &mut [u8], word: &[u8], value: usize, end: &[u8]) -> usize
    requires { length (ended word.now value end.now) ≤ length out.old }
    ensures { Put (ended word.now value end.now) out.old out.new result }
{
    let at = put_named(out, word, value);
    at + put(&mut out[at..], end)
}

#[tactic(auto, unfolding(crate::specs::Listing::line, base::specs::Text::text))]
fn put_line(out: &mut [u8], word: &[u8], value: usize) -> usize
    requires { length (line word.now value) ≤ length out.old }
    ensures { Put (line word.now value) out.old out.new result }
{
    put_ended(out, word, value, b"\n")
}

// Two numbers in a line, each behind its word.
#[tactic(auto, unfolding(crate::specs::Listing::pair_line))]
fn put_pair(out: &mut [u8], first: &[u8], a: usize, second: &[u8], b: usize) -> usize
    requires { length (pair_line first.now a second.now b) ≤ length out.old }
    ensures { Put (pair_line first.now a second.now b) out.old out.new result }
{
    let at = put_named(out, first, a);
    at + put_line(&mut out[at..], second, b)
}

// ---- a programme

#[tactic(auto, unfolding(crate::specs::Listing::segment_line, base::specs::Text::text))]
fn put_segment_line(out: &mut [u8], segment: usize, strategy: usize) -> usize
    requires { length (segment_line segment strategy) ≤ length out.old }
    ensures { Put (segment_line segment strategy) out.old out.new result }
{
    let at = put_number(out, segment);
    at + put_line(&mut out[at..], b" ", strategy)
}

// A line for each segment, by the strategies that they get. By a loop: a fold's closure would write to the output, and of what
// a chain's closure changes a proof knows nothing.
fn put_segment_lines(out: &mut [u8], strategies: &[usize]) -> usize
    requires { length (segment_lines (length strategies.now) 1 strategies.now) ≤ length out.old }
    ensures { Put (segment_lines (length strategies.now) 1 strategies.now) out.old out.new result }
{
    let mut at = 0;
    for (i, strategy) in strategies.iter().enumerate() {
        at += put_segment_line(&mut out[at..], i + 1, *strategy);
    }
    at
}

#[tactic(auto, unfolding(crate::specs::Listing::steps_line, crate::specs::Listing::pair_line, base::specs::Text::text))]
fn put_steps_line(out: &mut [u8], p: &Programme) -> usize
    requires { length (steps_line p.now) ≤ length out.old }
    ensures { Put (steps_line p.now) out.old out.new result }
{
    let at = put_named(out, b"steps ", p.steps as usize);
    at + put_pair(
        &mut out[at..],
        b" ",
        p.pickups as usize,
        b" ",
        p.changes as usize,
    )
}

#[tactic(auto, unfolding(crate::specs::Listing::results, base::specs::Text::text))]
fn put_results(out: &mut [u8], p: &Programme) -> usize
    requires { length (results p.now) ≤ length out.old }
    ensures { Put (results p.now) out.old out.new result }
{
    let mut at = put_line(out, b"benefit ", p.total as usize);
    at += put_line(&mut out[at..], b"ceiling ", p.ceiling as usize);
    at + put_steps_line(&mut out[at..], p)
}

// The programme of a district of `n` segments.
pub fn put_listing(out: &mut [u8], p: &Programme, n: usize) -> usize
    requires { longest_listing ≤ length out.old }
    ensures { Put (listing p.now n) out.old out.new result }
{
    let at = put_segment_lines(out, &p.strategies[..n.min(MOST_SEGMENTS)]);
    at + put_results(&mut out[at..], p)
}

// The unit's own.
#[tactic(auto, unfolding(crate::specs::Listing::shown))]
pub fn put_shown(out: &mut [u8], u: &Unit) -> usize
    requires { longest_listing ≤ length out.old }
    ensures { Put (shown u.now) out.old out.new result }
{
    put_listing(out, &u.programme, u.district[SEGMENT_COUNT])
}

// ---- the answer to a call

// A value or a refusal is a match in each writer, here and in the programs: one writer that takes the value's as a closure
// was tried. Its contract says when the closure may be called and what it puts, and each caller needs a proof by hand.

// Of any number, also one that is no refusal's; the writers of answers have the rules' refusals alone, as the answers do.
#[tactic(auto, using(crate::proofs::Lengths::refusal_few), unfolding(crate::specs::Listing::refusal, base::specs::Text::text))]
pub fn put_refused(out: &mut [u8], number: usize) -> usize
    requires { longest_refusal ≤ length out.old }
    ensures { Put (refusal_line number) out.old out.new result }
{
    put_line(out, b"refused ", number)
}

pub fn put_refusal(out: &mut [u8], refusal: Refusal) -> usize
    requires { longest_refusal ≤ length out.old }
    ensures { Put (refusal_line (refusal_number refusal)) out.old out.new result }
{
    put_refused(out, usize::from(refusal))
}

#[tactic(auto, unfolding(crate::specs::Listing::done, base::specs::Text::text))]
pub fn put_done(out: &mut [u8], answer: Answer) -> usize
    requires { longest_refusal ≤ length out.old }
    ensures { Put (done (answer_in answer)) out.old out.new result }
{
    match answer {
        Ok(_) => put(out, b"ok\n"),
        Err(refusal) => put_refusal(out, refusal),
    }
}

// Of an edit that a step carried out, with the number of its console: the line is of any number, so it takes no Console.
#[tactic(auto, unfolding(crate::specs::Listing::carried, base::specs::Text::text))]
pub fn put_carried(out: &mut [u8], console: usize, answer: Answer) -> usize
    requires { longest_stepped ≤ length out.old }
    ensures { Put (carried console (answer_in answer)) out.old out.new result }
{
    let at = put_ended(out, b"console ", console, b" ");
    at + put_done(&mut out[at..], answer)
}

// Of a step, which gives nothing where no edit waited.
#[tactic(auto, unfolding(crate::specs::Listing::stepped, base::specs::Text::text))]
pub fn put_stepped(out: &mut [u8], stepped: Option<(Console, Answer)>) -> usize
    requires { longest_stepped ≤ length out.old }
    ensures { Put (stepped_in stepped) out.old out.new result }
{
    match stepped {
        Some((console, answer)) => put_carried(out, usize::from(console), answer),
        None => put(out, b"idle\n"),
    }
}

// Of a call, with the unit's programme where it is accepted.
#[tactic(auto, unfolding(crate::specs::Listing::planned))]
pub fn put_planned(out: &mut [u8], answer: Answer, u: &Unit) -> usize
    requires { longest_listing ≤ length out.old }
    ensures { Put (planned (answer_in answer) u.now) out.old out.new result }
{
    match answer {
        Ok(_) => put_shown(out, u),
        Err(refusal) => put_refusal(out, refusal),
    }
}

#[tactic(auto, using(crate::proofs::Lengths::line_fits), unfolding(crate::specs::Listing::valued))]
pub fn put_valued(out: &mut [u8], word: &[u8], answer: Answer) -> usize
    requires { length word.now + longest_refusal ≤ length out.old }
    ensures { Put (valued word.now (answer_in answer)) out.old out.new result }
{
    match answer {
        Ok(value) => put_line(out, word, value),
        Err(refusal) => put_refusal(out, refusal),
    }
}

// ---- the answer to why

#[tactic(auto, unfolding(crate::specs::Listing::over_line, base::specs::Text::text))]
fn put_over(out: &mut [u8], resource: usize, end: &[u8]) -> usize
    requires { length (over_line resource end.now) ≤ length out.old }
    ensures { Put (over_line resource end.now) out.old out.new result }
{
    put_ended(out, b"over limit ", resource, end)
}

#[tactic(auto, unfolding(crate::specs::Listing::reason_line, base::specs::Text::text))]
fn put_reason(out: &mut [u8], reason: Reason) -> usize
    requires { longest_reason ≤ length out.old }
    ensures { Put (reason_line reason) out.old out.new result }
{
    match reason {
        Reason::InProgramme => put(out, b"in the programme\n"),
        Reason::Barred => put(out, b"barred\n"),
        Reason::MinimumMissed(distress, year) => put_pair(
            out,
            b"minimum rating missed: distress ",
            distress,
            b", year ",
            year,
        ),
        Reason::OverallMissed => put(out, b"overall requirement missed\n"),
        Reason::NoBenefit => put(out, b"benefit not above 0\n"),
        Reason::LeaderHasNothing => put(out, b"the leader has nothing\n"),
        Reason::OverAlone(resource) => put_over(out, resource, b" alone\n"),
        Reason::OverBeside(resource) => put_over(out, resource, b" beside the others\n"),
        Reason::NoGreaterTotal => put(out, b"fits, but the total would be no greater\n"),
    }
}

#[tactic(auto, unfolding(crate::specs::Listing::explained))]
pub fn put_why(out: &mut [u8], why: Result<Reason, Refusal>) -> usize
    requires { longest_reason ≤ length out.old }
    ensures { Put (explained (answer_in why)) out.old out.new result }
{
    match why {
        Ok(reason) => put_reason(out, reason),
        Err(refusal) => put_refusal(out, refusal),
    }
}

// ---- the answer to the question for roughness

#[tactic(auto, using(crate::proofs::Lengths::pair_fits), unfolding(crate::specs::Listing::told, base::specs::Text::text))]
pub fn put_roughness(out: &mut [u8], roughness: Result<Roughness, Refusal>) -> usize
    requires { longest_roughness ≤ length out.old }
    ensures { Put (told (answer_in roughness)) out.old out.new result }
{
    match roughness {
        Ok(Roughness { points, marker }) => {
            put_pair(out, b"points ", points, b" marker ", marker as usize)
        }
        Err(refusal) => put_refusal(out, refusal),
    }
}

// ---- a file that could not be had

#[tactic(auto, unfolding(crate::specs::Listing::failed, base::specs::Text::text))]
pub fn put_failed(out: &mut [u8], what: &[u8], path: &[u8]) -> usize
    requires { length (failed what.now path.now) ≤ length out.old }
    ensures { Put (failed what.now path.now) out.old out.new result }
{
    let mut at = put(out, what);
    at += put(&mut out[at..], path);
    at + put(&mut out[at..], b"\n")
}
