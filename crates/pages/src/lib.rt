// The page for the wall: a heading, a line for each segment, the total with the summed uses, and the limits.
#![tactic(auto)]

mod cells;
mod rows;

ghost use Rattle.std.specs.Prelude.{◌++◌, ◌≡◌, ◌+◌, ◌*◌, ◌≤◌, length, drop};
ghost use Rattle.base.specs.Over.{listed};
ghost use Rattle.base.specs.Text.{Put};
ghost use Rattle.rules.specs.Answers.{answer_in};
ghost use Rattle.rules.specs.Calls.{exported, page_refusal};
ghost use Rattle.rules.specs.District.{segments_of};
ghost use Rattle.rules.specs.Page.{segment_row, rows as Page·rows, lines, page as Page·page};
ghost use Rattle.pages.specs.Printed.{page_held, loaded_page, line_bytes, longest_page};

use rating::Ranged;
use rows::Sheet;
use rules::places::{MOST_SEGMENTS, SEGMENT_COUNT};
use rules::{Answer, District, Programme, Refusal, Unit};

// 80 characters and a line feed.
pub const LINE_BYTES: usize = 81;

// The heading, the total and the limits.
const OTHER_LINES: usize = 3;

// The most bytes of a page.
pub const LONGEST_PAGE: usize = LINE_BYTES * (MOST_SEGMENTS + OTHER_LINES);

// The segments' lines. From 0, so that i is how many are written; by a loop, as listing's put_segment_lines.
fn put_segments(out: &mut [u8], sheet: &Sheet) -> usize
    requires { segments_of sheet.now.ranged.district.now * line_bytes ≤ length out.old }
    ensures { let d = sheet.now.ranged.district.now in Put (lines (listed (segments_of d) (segment_row d sheet.now.programme.now.strategies))) out.old out.new result }
{
    let mut at = 0;
    for i in 0..sheet.ranged.district[SEGMENT_COUNT] {
        at += cells::put_row(&mut out[at..], sheet.segment_row(i + 1));
    }
    at
}

// Each line behind the one before it.
fn put_lines(out: &mut [u8], sheet: &Sheet) -> usize
    requires { (segments_of sheet.now.ranged.district.now + 3) * line_bytes ≤ length out.old }
    ensures { Put (lines (Page·rows sheet.now.ranged.district.now sheet.now.programme.now)) out.old out.new result }
{
    let mut at = cells::put_heading(out);
    at += put_segments(&mut out[at..], sheet);
    at += cells::put_row(&mut out[at..], sheet.total_row());
    at + cells::put_row(&mut out[at..], sheet.limits_row())
}

// The page of a district and a programme to the front of the buffer, where the buffer has room for it.
#[tactic(auto, using(crate::proofs::Given::page_none, crate::proofs::Given::page_short))]
pub fn page(d: &District, p: &Programme, buffer: &mut [u8]) -> Answer
    ensures { record { answer = answer_in result; buffer = buffer.new } ≡ exported (page_refusal d.now buffer.old) (Page·page d.now p.now) buffer.old }
{
    let Some(ranged) = Ranged::of(d) else {
        return Ok(0);
    };
    let length = LINE_BYTES * (d[SEGMENT_COUNT] + OTHER_LINES);
    if buffer.len() < length {
        return Err(Refusal::NoRoomForPage);
    }
    let sheet = Sheet {
        ranged,
        programme: p,
    };
    Ok(put_lines(buffer, &sheet))
}

// ---- for the programs

// The unit's own: where any page has room it is never refused.
pub fn put_page(out: &mut [u8], u: &Unit) -> usize
    requires { longest_page ≤ length out.old }
    ensures { Put (page_held u.now) out.old out.new result }
{
    page(&u.district, &u.programme, out).unwrap()
}

// What a load comes to: the page of the unit, or the refusal. Of a listing `plan` alone needs it, and has the match itself.
pub fn put_paged(out: &mut [u8], loaded: &Result<Unit, Refusal>) -> usize
    requires { longest_page ≤ length out.old }
    ensures { Put (loaded_page loaded.now) out.old out.new result }
{
    match loaded {
        Ok(u) => put_page(out, u),
        Err(refusal) => listing::put_refusal(out, *refusal),
    }
}
