// Document 02, request 13: a choice of blocks, whether it is followed, and the district of a block by itself.
#![tactic(auto)]

ghost use Rattle.std.specs.Prelude.{◌≡◌, true, false, MatchOption, ◌+◌, ◌<◌, ◌≤◌, get_or};
ghost use Rattle.base.specs.Over.{all};
ghost use Rattle.grammar.specs.Ranges.{Ranges};
ghost use Rattle.rules.specs.Blocks.{most_blocks, choice_of, no_blocks, per_block, blocks_in, number_in, in_block, end_of, is_row, in_order, covering, parts_fit, led_inside, leaders_inside, followed, with_parts, block_district};
ghost use Rattle.rules.specs.District.{segments_of, resources_of, all_bars};
ghost use Rattle.rating.specs.Numbers.{Segment};
ghost use Rattle.blocks.specs.Numbers.{Block};

use rating::Ranged;
use rules::places::*;
use rules::{Choice, District};
use std::array;
use std::ops::Range;

// ---- choices

// Number n of a row, from 0; 0 past its end.
fn number_at(row: &[usize], n: usize) -> usize
    ensures { result ≡ get_or row.now n 0 }
{
    row.get(n).copied().unwrap_or(0)
}

// The choice of any row.
pub fn choice_of(row: &[usize]) -> Choice
    ensures { result ≡ choice_of row.now }
{
    Choice {
        length: row.len(),
        numbers: array::from_fn(|n| number_at(row, n)),
    }
}

// The choice of the empty row: the ordinary plan is made.
#[tactic(auto, unfolding(rules::specs::Blocks::no_blocks))]
pub fn no_blocks() -> Choice
    ensures { result ≡ no_blocks }
{
    choice_of(&[])
}

// How many numbers a block has: its first segment, its last, and a part of each limit.
fn per_block(ranged: Ranged<'_>) -> usize
    ensures { result ≡ 2 + resources_of ranged.entry.district.now }
{
    2 + ranged.district[RESOURCE_COUNT]
}

// How many blocks a choice is long enough for.
#[tactic(auto, unfolding(rules::specs::Blocks::blocks_in))]
fn count(ranged: Ranged<'_>, choice: &Choice) -> usize
    ensures { result ≡ blocks_in choice.now ranged.entry.district.now }
{
    choice.length / per_block(ranged)
}

// Whether it is a row of one to four whole blocks.
#[tactic(auto, using(base::proofs::Choice::picks), unfolding(rules::specs::Blocks::is_row))]
fn is_row(ranged: Ranged<'_>, choice: &Choice) -> bool
    ensures { result ≡ is_row choice.now ranged.entry.district.now }
{
    let count = count(ranged, choice);
    (1..=MOST_BLOCKS).contains(&count) && per_block(ranged) * count == choice.length
}

// ---- a row of whole blocks

// The choice is a row of one to four whole blocks, so that each of their numbers is there. The numbers are any of 64 bits.
#[derive(Clone, Copy)]
struct Row<'a> {
    ranged: Ranged<'a>,
    choice: &'a Choice,
    ghost whole: { is_row choice.now ranged.district.now ≡ true },
    ghost few: { blocks_in choice.now ranged.district.now ≤ most_blocks },
}

impl<'a> Row<'a> {
    #[tactic(auto, using(laws::proofs::Blocks::row_few))]
    fn of(ranged: Ranged<'a>, choice: &'a Choice) -> Option<Row<'a>>
        ensures { MatchOption result (is_row choice.now ranged.entry.district.now ≡ false) (λ r. (r.choice.now ≡ choice.now) × (r.ranged.district.now ≡ ranged.entry.district.now)) }
    {
        if !is_row(ranged, choice) {
            return None;
        }
        Some(Row { ranged, choice })
    }

    // The numbers of the blocks, from 1 on.
    fn blocks(&self) -> Range<usize>
        ensures { result ≡ record { start = 1; end = blocks_in self.now.choice.now self.now.ranged.district.now + 1 } }
    {
        1..count(self.ranged, self.choice) + 1
    }

    // Number n of block b, from 0: the first segment, the last, the parts.
    #[tactic(auto, unfolding(rules::specs::Blocks::number_in))]
    fn number(&self, b: usize, n: usize) -> usize
        requires { Block b × (n < per_block self.now.choice.now self.now.ranged.district.now) }
        ensures { result ≡ number_in self.now.choice.now self.now.ranged.district.now b n }
    {
        self.choice.numbers[per_block(self.ranged) * (b - 1) + n]
    }

    // The last segment of block b; 0 before the first block.
    #[tactic(auto, using(crate::proofs::Rows::end_none, crate::proofs::Rows::end_some))]
    fn end(&self, b: usize) -> usize
        requires { b ≤ most_blocks }
        ensures { result ≡ end_of self.now.choice.now self.now.ranged.district.now b }
    {
        if b == 0 { 0 } else { self.number(b, 1) }
    }

    // Segment i is in block b.
    #[tactic(auto, using(base::proofs::Choice::picks), unfolding(rules::specs::Blocks::in_block))]
    fn contains(&self, b: usize, i: usize) -> bool
        requires { Block b }
        ensures { result ≡ in_block self.now.choice.now self.now.ranged.district.now b i }
    {
        (self.number(b, 0)..=self.number(b, 1)).contains(&i)
    }

    // ---- the tests

    // Block b is not empty, and begins right behind the one before it.
    #[tactic(auto, using(base::proofs::Choice::picks), unfolding(rules::specs::Blocks::in_order))]
    fn in_order(&self, b: usize) -> bool
        requires { Block b }
        ensures { result ≡ in_order self.now.choice.now self.now.ranged.district.now b }
    {
        let first = self.number(b, 0);
        first <= self.number(b, 1) && 0 < first && first - 1 == self.end(b - 1)
    }

    fn all_in_order(&self) -> bool
        ensures { result ≡ all (blocks_in self.now.choice.now self.now.ranged.district.now) (in_order self.now.choice.now self.now.ranged.district.now) }
    {
        self.blocks().all(|b| self.in_order(b))
    }

    // Each segment is in one block.
    #[tactic(auto, using(base::proofs::Choice::picks), unfolding(rules::specs::Blocks::covering))]
    fn is_covering(&self) -> bool
        ensures { result ≡ covering self.now.choice.now self.now.ranged.district.now }
    {
        self.all_in_order()
            && self.end(count(self.ranged, self.choice)) == self.ranged.district[SEGMENT_COUNT]
    }

    // The parts of resource r add to no more than its limit: each is taken from what those before it leave.
    fn parts_fit(&self, r: usize) -> bool
        requires { (1 ≤ r) × (r ≤ resources_of self.now.ranged.district.now) }
        ensures { result ≡ parts_fit self.now.choice.now self.now.ranged.district.now r }
    {
        let limit = rating::limit_at(self.ranged.district, r);
        self.blocks()
            .try_fold(limit, |left, b| left.checked_sub(self.number(b, 1 + r)))
            .is_some()
    }

    // Segment i is not in block b, or has no leader, or one in the block.
    #[tactic(auto, using(base::proofs::Choice::picks), unfolding(rules::specs::Blocks::led_inside, rules::specs::District::leader_of))]
    fn is_led_inside(&self, b: usize, i: usize) -> bool
        requires { Block b × Segment i }
        ensures { result ≡ led_inside self.now.choice.now self.now.ranged.district.now b i }
    {
        let leader = rating::segment_at(self.ranged.district, i, LEADER);
        !self.contains(b, i) || leader == 0 || self.contains(b, leader)
    }

    fn leaders_inside(&self, b: usize) -> bool
        requires { Block b }
        ensures { result ≡ leaders_inside self.now.choice.now self.now.ranged.district.now b }
    {
        self.ranged.segments().all(|i| self.is_led_inside(b, i))
    }

    fn all_parts_fit(&self) -> bool
        ensures { result ≡ all (resources_of self.now.ranged.district.now) (parts_fit self.now.choice.now self.now.ranged.district.now) }
    {
        self.ranged.resources().all(|r| self.parts_fit(r))
    }

    fn all_leaders_inside(&self) -> bool
        ensures { result ≡ all (blocks_in self.now.choice.now self.now.ranged.district.now) (leaders_inside self.now.choice.now self.now.ranged.district.now) }
    {
        self.blocks().all(|b| self.leaders_inside(b))
    }

    // The tests go from the cheapest on.
    #[tactic(auto, using(base::proofs::Choice::picks), unfolding(rules::specs::Blocks::followed))]
    fn is_followed(&self) -> bool
        ensures { result ≡ followed self.now.choice.now self.now.ranged.district.now }
    {
        self.is_covering() && self.all_parts_fit() && self.all_leaders_inside()
    }

    // ---- a block by itself

    // The district with the parts of block b as its limits.
    #[tactic(auto, using(crate::proofs::Districts::parts_none, crate::proofs::Districts::parts_more))]
    fn with_parts(&self, b: usize) -> District
        requires { Block b }
        ensures { let d = self.now.ranged.district.now in result ≡ with_parts self.now.choice.now d b (resources_of d) }
    {
        let mut district = *self.ranged.district;
        for r in 1..self.ranged.district[RESOURCE_COUNT] + 1 {
            district[LIMITS + (r - 1)] = self.number(b, 1 + r);
        }
        district
    }

    // The same with every strategy barred on the segments outside.
    #[tactic(auto, using(crate::proofs::Districts::outside_none, crate::proofs::Districts::outside_in, crate::proofs::Districts::outside_out), unfolding(rules::specs::Blocks::block_district))]
    fn district(&self, b: usize) -> District
        requires { Block b }
        ensures { result ≡ block_district self.now.choice.now self.now.ranged.district.now b }
    {
        let mut district = self.with_parts(b);
        let bars = all_bars(self.ranged);
        for i in 1..self.ranged.district[SEGMENT_COUNT] + 1 {
            if !self.contains(b, i) {
                district[SEGMENTS + PER_SEGMENT * (i - 1) + BARS] = bars;
            }
        }
        district
    }
}

// A mask that bars every strategy.
fn all_bars(ranged: Ranged<'_>) -> usize
    ensures { result ≡ all_bars ranged.entry.district.now }
{
    (1 << ranged.district[STRATEGY_COUNT]) - 1
}

// ---- a choice that is followed

// The blocks of a district in the file's ranges, by a choice that is followed for it.
#[derive(Clone, Copy)]
pub struct Blocks<'a> {
    pub ranged: Ranged<'a>,
    pub choice: &'a Choice,
    pub ghost followed: { followed choice.now ranged.district.now ≡ true },
}

impl<'a> Blocks<'a> {
    // None where the choice is not followed: the ordinary plan is made.
    pub fn of(ranged: Ranged<'a>, choice: &'a Choice) -> Option<Blocks<'a>>
        ensures { MatchOption result (followed choice.now ranged.entry.district.now ≡ false) (λ r. (followed choice.now ranged.entry.district.now ≡ true) × (r.choice.now ≡ choice.now) × (r.ranged.district.now ≡ ranged.entry.district.now)) }
    {
        let row = Row::of(ranged, choice)?;
        if !row.is_followed() {
            return None;
        }
        Some(Blocks { ranged, choice })
    }

    #[tactic(auto, using(laws::proofs::Blocks::tests, laws::proofs::Blocks::blocks_few))]
    fn row(&self) -> Row<'a>
        ensures { (result.choice.now ≡ self.now.choice.now) × (result.ranged.district.now ≡ self.now.ranged.district.now) }
    {
        Row {
            ranged: self.ranged,
            choice: self.choice,
        }
    }

    // How many there are.
    #[tactic(auto, using(laws::proofs::Blocks::blocks_few))]
    pub fn count(&self) -> usize
        ensures value { result ≡ blocks_in self.now.choice.now self.now.ranged.district.now }
        ensures few { (1 ≤ result) × (result ≤ most_blocks) }
    {
        count(self.ranged, self.choice)
    }

    // The last segment of block b; 0 before the first block.
    #[tactic(auto, using(laws::proofs::Blocks::end_le))]
    pub fn end(&self, b: usize) -> usize
        requires { b ≤ blocks_in self.now.choice.now self.now.ranged.district.now }
        ensures value { result ≡ end_of self.now.choice.now self.now.ranged.district.now b }
        ensures there { result ≤ segments_of self.now.ranged.district.now }
    {
        self.row().end(b)
    }

    // The district of block b by itself: with its parts as limits, and every strategy barred on the segments outside.
    pub fn district(&self, b: usize) -> District
        requires { (1 ≤ b) × (b ≤ blocks_in self.now.choice.now self.now.ranged.district.now) }
        ensures value { result ≡ block_district self.now.choice.now self.now.ranged.district.now b }
        ensures ranges { Ranges result }
    {
        self.row().district(b)
    }
}
