// The edits of a district: what refuses each, and the one value that it alters. Every function is total, for any numbers
// and any value of the type, so that no call relies on a check made before it.
#![tactic(auto)]

ghost use Rattle.std.specs.Prelude.{◌≡◌, ◌+◌, ◌-◌, ◌*◌, ℕ, min, get_or, set, Ok, Err};
ghost use Rattle.base.specs.Bits.{set_bit, clear_bit};
ghost use Rattle.base.specs.Choice.{pick};
ghost use Rattle.base.specs.Over.{between};
ghost use Rattle.edits.specs.Places.{usize_max};
ghost use Rattle.rules.specs.Answers.{refusal_in};
ghost use Rattle.rules.specs.Calls.{bar_refusal, limit_refusal, rating_refusal, leader_refusal, edit_refusal, edited};
ghost use Rattle.rules.specs.District.{segment_place, bars_place, greatest_of, bars_of, with_limit, with_bar, without_bar, with_rating, with_leader, fresh_district};

use rules::places::*;
use rules::{District, Edit, Refusal};

// The place of the `n`-th from `start` on, where the first is 1. For any numbers: a place that saturates is past the last.
fn nth_from(start: usize, n: usize) -> usize
    ensures { result ≡ min (start + (n - 1)) usize_max }
{
    start.saturating_add(n.saturating_sub(1))
}

// The place of a number of a segment, `at` its place in the segment.
fn place_in(segment: usize, at: usize) -> usize
    ensures { result ≡ min (segment_place segment + at) usize_max }
{
    PER_SEGMENT
        .saturating_mul(segment.saturating_sub(1))
        .saturating_add(SEGMENTS)
        .saturating_add(at)
}

// The number at a place, 0 past the last.
fn value_at(d: &District, at: usize) -> usize
    ensures { result ≡ get_or d.now at 0 }
{
    d.get(at).copied().unwrap_or(0)
}

// Another number at a place; there is none past the last.
#[tactic(auto, using(crate::proofs::Places::past_set))]
fn set_value(d: &mut District, at: usize, value: usize)
    ensures { d.new ≡ set d.old at value }
{
    // With `get_mut` it was tried: what a write through its reference leaves did not close.
    if at < DISTRICT_PLACES {
        d[at] = value;
    }
}

// ---- a test that refuses

fn refuse_unless(test: bool, refusal: Refusal) -> Result<(), Refusal>
    ensures { result ≡ pick test (Ok tt) (Err refusal) }
{
    if test { Ok(()) } else { Err(refusal) }
}

// Refused where `x` is not 1 to `count`.
fn one_to(x: usize, count: usize, refusal: Refusal) -> Result<(), Refusal>
    ensures { result ≡ pick (between 1 count x) (Ok tt) (Err refusal) }
{
    refuse_unless((1..=count).contains(&x), refusal)
}

// ---- limits

fn check_limit(d: &District, resource: usize, limit: usize) -> Result<(), Refusal>
    ensures { refusal_in result ≡ limit_refusal d.now resource limit }
{
    one_to(resource, d[RESOURCE_COUNT], Refusal::NoSuchNumber)?;
    let field = grammar::limit_field(d, resource - 1);
    refuse_unless(grammar::is_inside(field, limit), Refusal::NewOutOfRange)
}

#[tactic(auto, using(crate::proofs::Places::capped_set))]
fn set_limit(d: &mut District, resource: usize, limit: usize)
    ensures { d.new ≡ with_limit d.old resource limit }
{
    set_value(d, nth_from(LIMITS, resource), limit);
}

// ---- ratings

// The greatest rating of a distress.
#[tactic(auto, using(crate::proofs::Places::capped_get), unfolding(rules::specs::District::greatest_of))]
fn greatest_of(d: &District, distress: usize) -> usize
    ensures { result ≡ greatest_of d.now distress }
{
    value_at(d, nth_from(GREATEST, distress))
}

fn check_rating(d: &District, segment: usize, distress: usize, rating: usize) -> Result<(), Refusal>
    ensures { refusal_in result ≡ rating_refusal d.now segment distress rating }
{
    one_to(segment, d[SEGMENT_COUNT], Refusal::NoSuchSegment)?;
    one_to(distress, d[DISTRESS_COUNT], Refusal::NoSuchNumber)?;
    refuse_unless(rating <= greatest_of(d, distress), Refusal::NewOutOfRange)
}

#[tactic(auto, using(crate::proofs::Places::capped_set))]
fn set_rating(d: &mut District, segment: usize, distress: usize, rating: usize)
    ensures { d.new ≡ with_rating d.old segment distress rating }
{
    let ratings = place_in(segment, RATINGS);
    set_value(d, nth_from(ratings, distress), rating);
}

// ---- bars

fn check_bar(d: &District, segment: usize, strategy: usize) -> Result<(), Refusal>
    ensures { refusal_in result ≡ bar_refusal d.now segment strategy }
{
    one_to(segment, d[SEGMENT_COUNT], Refusal::NoSuchSegment)?;
    one_to(strategy, d[STRATEGY_COUNT], Refusal::NoSuchNumber)
}

// The mask with bit `n` set.
#[tactic(auto, using(base::proofs::Bits::set_by_or, base::proofs::Bits::not_set))]
fn set_bit(mask: usize, n: usize) -> usize
    ensures { result ≡ set_bit mask n }
{
    if n < 16 { mask | (1 << n) } else { mask }
}

// The mask with bit `n` cleared.
#[tactic(auto, using(base::proofs::Bits::cleared_by_and, base::proofs::Bits::not_cleared))]
fn clear_bit(mask: usize, n: usize) -> usize
    ensures { result ≡ clear_bit mask n }
{
    if n < 16 { mask & !(1 << n) } else { mask }
}

// The bars of a segment; none where there is no such segment.
#[tactic(auto, using(crate::proofs::Places::capped_get), unfolding(rules::specs::District::bars_of))]
fn bars_of(d: &District, segment: usize) -> usize
    ensures { result ≡ bars_of d.now segment }
{
    value_at(d, place_in(segment, BARS))
}

// The segment with bars that are made of the ones it has.
#[tactic(auto, using(crate::proofs::Places::capped_set))]
fn change_bars<F: FnOnce(usize) -> usize>(d: &mut District, segment: usize, change: F)
    requires { F.pre change (bars_of d.old segment) }
    ensures { (bars : ℕ) → ((x : ℕ) → F.post change (bars_of d.old segment) x → x ≡ bars) → d.new ≡ set d.old (bars_place segment) bars }
{
    let bars = change(bars_of(d, segment));
    set_value(d, place_in(segment, BARS), bars);
}

// ---- leaders

fn check_leader(d: &District, segment: usize, leader: usize) -> Result<(), Refusal>
    ensures { refusal_in result ≡ leader_refusal d.now segment leader }
{
    one_to(segment, d[SEGMENT_COUNT], Refusal::NoSuchSegment)?;
    refuse_unless(leader < segment, Refusal::LeaderNotBelow)
}

#[tactic(auto, using(crate::proofs::Places::capped_set))]
fn set_leader(d: &mut District, segment: usize, leader: usize)
    ensures { d.new ≡ with_leader d.old segment leader }
{
    set_value(d, place_in(segment, LEADER), leader);
}

// ---- any edit

pub fn check(d: &District, e: Edit) -> Result<(), Refusal>
    ensures { refusal_in result ≡ edit_refusal d.now e }
{
    match e {
        Edit::Bar(i, j) | Edit::Unbar(i, j) => check_bar(d, i, j),
        Edit::SetLimit(r, limit) => check_limit(d, r, limit),
        Edit::SetRating(i, k, rating) => check_rating(d, i, k, rating),
        Edit::SetLeader(i, leader) => check_leader(d, i, leader),
    }
}

pub fn edit(d: &mut District, e: Edit)
    ensures { d.new ≡ edited d.old e }
{
    match e {
        Edit::Bar(i, j) => change_bars(d, i, |bars| set_bit(bars, j.saturating_sub(1))),
        Edit::Unbar(i, j) => change_bars(d, i, |bars| clear_bit(bars, j.saturating_sub(1))),
        Edit::SetLimit(r, limit) => set_limit(d, r, limit),
        Edit::SetRating(i, k, rating) => set_rating(d, i, k, rating),
        Edit::SetLeader(i, leader) => set_leader(d, i, leader),
    }
}

// ---- the fresh unit's district

#[tactic(auto, unfolding(rules::specs::District::fresh_district))]
pub fn fresh_district() -> District
    ensures { result ≡ fresh_district }
{
    // Each count by its name: `d[STRATEGY_COUNT..COUNT_PLACES].fill(1)` was tried, and that the array is the rules' did not close.
    let mut d = [0usize; DISTRICT_PLACES];
    d[STRATEGY_COUNT] = 1;
    d[YEAR_COUNT] = 1;
    d[DISTRESS_COUNT] = 1;
    d[PAVEMENT_COUNT] = 1;
    d[RESOURCE_COUNT] = 1;
    d[GREATEST] = 1;
    d
}
