// Phase 1: each segment takes its top candidate; while some limit does not hold, the weakest segment steps down. A segment
// whose leader has nothing has nothing. That segment i is the table's stays a clause of what takes an i: it is a number of a
// loop, and a type for it would have to carry the table. The searches take a size and the benefits in place of a view of a
// table, since start asks for no limits, and so could make none. They go as two: a struct of the two would be made at each call,
// `Ranked { size: t.size, benefits: t.benefits }.next(i, x)` for `next_candidate(t.size, t.benefits, i, x)`.
#![tactic(auto)]

ghost use Rattle.std.specs.Prelude.{◌≡◌, Bool, false, List, ℕ, ◌≤◌, Some};
ghost use Rattle.base.specs.Over.{sum};
ghost use Rattle.rules.specs.District.{most_segments, most_strategies, most_resources};
ghost use Rattle.rules.specs.Phases.{strategy_at, pruned, top_candidate, bests, start, next_candidate, step_down, phase1};
ghost use Rattle.tables.specs.Arrays.{tables, benefit_at, leader_in, Bounded, Cell, Chosen, Running};
ghost use Rattle.tables.specs.Views.{table_in, leaders_in};
ghost use Rattle.phase1.specs.Reduce.{ShareSums, held_share, Summable, LedWithin, IsTest, ToStep, best_passing};
ghost use Rattle.phase1.specs.Views.{HeldIn};

use rules::places::{MOST_RESOURCES, MOST_SEGMENTS};
use shares::Summed;
use std::array;
use tables::{
    BenefitTable, Draft, LeaderList, Move, Planning, Size, USE_ENTRIES, UsageTable, by_resource,
    use_entry,
};
use weighed::Weighed;

mod shares;
mod weighed;

// The candidate of segment i with the greatest benefit, of equals the lowest, among those of which the test, of number and
// benefit, holds; 0 where there is none, which is the number of nothing. A loop, which tests those alone that would lead. Tried
// by map, filter and reduce: each candidate is tested, at 1.2 percent more instructions of the slowest plan, and the proof did
// not close, since the library's law of a filter asks what the test answers of every number, and here it is known from 1 to the
// strategies' count alone.
pub fn best_candidate<F: Fn(usize, u64) -> bool>(
    z: Size,
    benefits: BenefitTable<'_>,
    i: usize,
    passes: F,
) -> usize
    requires cell { Cell i z.strategies }
    requires callable { (j : ℕ) → 1 ≤ j → j ≤ z.strategies → F.pre passes j (benefit_at benefits.entries.now i j) }
    ensures { (p : ℕ → Bool) → IsTest z.strategies (F.post passes) (benefit_at benefits.entry.entries.now i) p → result ≡ best_passing z.strategies (benefit_at benefits.entry.entries.now i) p }
{
    let mut top: usize = 0;
    let mut most: u64 = 0;
    for j in 0..z.strategies {
        let value = benefits.at(i, j + 1);
        if most < value && passes(j + 1, value) {
            top = j + 1;
            most = value;
        }
    }
    top
}

// The candidate of segment i with the greatest benefit, of equals the lowest, or nothing.
fn top_candidate(z: Size, benefits: BenefitTable<'_>, i: usize) -> usize
    requires { Cell i z.strategies }
    ensures { (u l : List ℕ) → result ≡ top_candidate (tables z benefits.entry.entries.now u l) i }
{
    best_candidate(z, benefits, i, |_, _| true)
}

// The candidate of segment i that comes next after a, by falling benefit and among equals by number, or nothing after the
// last.
fn next_candidate(z: Size, benefits: BenefitTable<'_>, i: usize, a: usize) -> usize
    requires { Cell i z.strategies × (a ≤ z.strategies) }
    ensures { (u l : List ℕ) → result ≡ next_candidate (tables z benefits.entry.entries.now u l) i a }
{
    let old = benefits.at(i, a);
    best_candidate(z, benefits, i, |j, value| (value, a) < (old, j))
}

// Of an array at the places of uses, what stands there for a programme's strategies in resource r, together. The three of size,
// array and programme go as they are: the array is of uses or of shares and the programme no draft yet, or one that its draft
// has changed, so a struct of the three would be made at each of the four calls and hold for that one.
fn sum_in(z: Size, entries: &[u64; USE_ENTRIES], choice: &[usize; MOST_SEGMENTS], r: usize) -> u64
    requires summable { Summable z entries.now choice.now }
    requires le_r { (1 ≤ r) × (r ≤ z.resources) }
    ensures { result ≡ sum z.segments (held_share entries.now choice.now r) }
{
    (0..z.segments)
        .map(|i| entries[use_entry(i + 1, choice[i], r)])
        .sum()
}

// The same in each resource: of uses the sums that a draft keeps, of shares those that the surpluses need.
fn sums_of(
    z: Size,
    entries: &[u64; USE_ENTRIES],
    choice: &[usize; MOST_SEGMENTS],
) -> [u64; MOST_RESOURCES]
    requires { Summable z entries.now choice.now }
    ensures { ShareSums z entries.now choice.now result }
{
    by_resource(z.resources, |r| sum_in(z, entries, choice, r))
}

// Of the first segments those get nothing whose leaders have nothing, by rising number. Returns whether one of them had
// something. A loop over numbers, since whether a segment keeps what it has goes by what the ones before it still have.
fn prune(segments: usize, leaders: LeaderList<'_>, choice: &mut [usize; MOST_SEGMENTS]) -> bool
    requires { segments ≤ most_segments }
    ensures choice_after { choice.new ≡ pruned (leader_in leaders.entry.entries.now) segments choice.old }
    ensures choice_unchanged { result ≡ false → choice.new ≡ choice.old }
{
    let mut lost = false;
    for i in 0..segments {
        if choice[i] > 0 && !leaders.is_led(choice, i + 1) {
            choice[i] = 0;
            lost = true;
        }
    }
    lost
}

// The last of the segments that has a leader, or 0: a programme needs no pruning past it. It bounds a loop, so it is a number.
fn last_led(segments: usize, leaders: LeaderList<'_>) -> usize
    requires { segments ≤ most_segments }
    ensures { LedWithin leaders.entry.entries.now segments result }
{
    let entries = leaders.entries;
    entries[..segments]
        .iter()
        .rposition(|leader| *leader > 0)
        .map_or(0, |i| i + 1)
}

// Segment i takes its next candidate; where that leaves others without their leaders, they lose what they have in the same
// step. The first `led` segments have all the leaders. Planning and sums go in as two. Tried as one struct, with what holds of
// them as ghost fields: it would lend the planning, and of a `&mut` field beside a ghost field the borrow check does not cover
// that it is lent on; a struct that owned the planning would have reduce take it and give it back.
fn step(planning: &mut Planning<'_>, summed: &mut Summed<'_>, led: usize, i: usize)
    requires leaders { LedWithin planning.old.t.leaders.entries.now planning.old.t.size.segments led }
    requires held { HeldIn planning.old.t summed.old.shares.now planning.old.draft.choice }
    requires sums { ShareSums planning.old.t.size summed.old.shares.now planning.old.draft.choice summed.old.sums }
    requires le_i { (1 ≤ i) × (i ≤ planning.old.t.size.segments) }
    ensures same_table { planning.new.t ≡ planning.old.t }
    ensures same_shares { summed.new.shares ≡ summed.old.shares }
    ensures stepped { step_down (table_in planning.old.t) (leaders_in planning.old.t) planning.old.draft.choice i ≡ Some planning.new.draft.choice }
    ensures sums { ShareSums planning.old.t.size summed.old.shares.now planning.new.draft.choice summed.new.sums }
{
    let t = planning.t;
    let x = planning.draft.choice[i - 1];
    let next = Move(i, next_candidate(t.size, t.benefits, i, x));
    planning.give(next);
    if prune(led, t.leaders, &mut planning.draft.choice) {
        planning.draft.sums = sums_of(t.size, t.uses.entries, &planning.draft.choice);
        summed.sums = sums_of(t.size, summed.shares, &planning.draft.choice);
    } else {
        summed.give(t.size.resources, x, next);
    }
}

// Phase 1, the steps: until every limit holds. Returns how many there were. A loop: `iter::from_fn(..).count()` would change the
// planning and the sums in its closure, of which a proof would know nothing.
pub fn reduce(planning: &mut Planning<'_>, shares: &[u64; USE_ENTRIES]) -> u64
    requires { HeldIn planning.old.t shares.now planning.old.draft.choice }
    ensures same_table { planning.new.t ≡ planning.old.t }
    ensures choice_after { planning.new.draft.choice ≡ (phase1 (table_in planning.old.t) (leaders_in planning.old.t) planning.old.draft.choice).last }
    ensures value { result ≡ (phase1 (table_in planning.old.t) (leaders_in planning.old.t) planning.old.draft.choice).count }
{
    let led = last_led(planning.t.size.segments, planning.t.leaders);
    let sums = sums_of(planning.t.size, shares, &planning.draft.choice);
    let summed = &mut Summed { shares, sums };
    let mut steps: u64 = 0;
    while let Some(i) = (Weighed { planning, summed }).to_step() {
        step(planning, summed, led, i);
        steps += 1;
    }
    steps
}

// A programme in the making, of the strategies that it is to begin with: their sums are made.
pub fn draft_of(z: Size, uses: UsageTable<'_>, choice: [usize; MOST_SEGMENTS]) -> Draft
    requires { Bounded z × Chosen z choice }
    ensures running { Running z uses.entry.entries.now result.choice result.sums }
    ensures same_choice { result.choice ≡ choice }
{
    let sums = sums_of(z, uses.entries, &choice);
    Draft { choice, sums }
}

// Each segment takes its top candidate.
fn top_choice(z: Size, benefits: BenefitTable<'_>) -> [usize; MOST_SEGMENTS]
    requires { z.strategies ≤ most_strategies }
    ensures { (u l : List ℕ) → result ≡ bests (tables z benefits.entry.entries.now u l) }
{
    array::from_fn(|i| top_candidate(z, benefits, i + 1))
}

// Phase 1, the start: each segment takes its top candidate unless its leader has nothing, and the sums are made.
pub fn start(
    z: Size,
    leaders: LeaderList<'_>,
    benefits: BenefitTable<'_>,
    uses: UsageTable<'_>,
) -> Draft
    requires { Bounded z }
    ensures running { Running z uses.entry.entries.now result.choice result.sums }
    ensures by_index { (l : List ℕ) → result.choice ≡ start (tables z benefits.entry.entries.now uses.entry.entries.now l) (leader_in leaders.entry.entries.now) }
{
    let mut choice = top_choice(z, benefits);
    prune(z.segments, leaders, &mut choice);
    draft_of(z, uses, choice)
}
