// The arrays that the phases and the ceiling read: a district's leaders and its table, filled once for a plan, and the table's
// shares. Benefits and uses are filled for the district's own segments: the arrays are zeros before, and what the district does
// not have counts 0. So it is asked of them: they are made of zeros, and to write the rest here would be to write it twice.
#![tactic(auto)]

ghost use Rattle.std.specs.Prelude.{◌≡◌, ℕ, ◌+◌, ◌-◌, ◌*◌, ◌/◌, ◌%◌, ◌^◌, ◌<◌, ◌≤◌, length, get_or, replicate};
ghost use Rattle.base.specs.Over.{listed, listed_from};
ghost use Rattle.tables.specs.Arrays.{columns, entries, use_entries};
ghost use Rattle.tables.specs.Views.{table_in};
ghost use Rattle.rules.specs.Ceiling.{down_share};
ghost use Rattle.rules.specs.District.{most_resources};
ghost use Rattle.rules.specs.Phases.{share};
ghost use Rattle.rules.specs.Table.{usage_in};
ghost use Rattle.rating.specs.Numbers.{Segment};
ghost use Rattle.fill.specs.Filled.{Filled, SharesBy};
ghost use Rattle.fill.specs.Lists.{leader_list, benefit_list, usage_list, limit_list, share_by, share_entry};

use rating::Ranged;
use rules::District;
use rules::places::{
    LEADER, MOST_RESOURCES, MOST_SEGMENTS, RESOURCE_COUNT, SEGMENT_COUNT, STRATEGY_COUNT,
};
use std::array;
use tables::{COLUMNS, ENTRIES, LimitList, Size, TableView, USE_ENTRIES, UsageTable, by_resource};

// Each place of a list, counted from 0, gets what is made of its number. tables::by_resource has this loop for an array of its
// own, from 1 on: its clauses are of numbers of resources, these of any list. A loop, since `fill_with` hands no number.
fn fill_each<T: Copy, F: Fn(usize) -> T>(list: &mut [T], entry: F)
    requires { (n : ℕ) → n < length list.old → F.pre entry n }
    ensures { (f : ℕ → T) → ((n : ℕ) (v : T) → n < length list.old → F.post entry n v → v ≡ f n) → list.new ≡ listed_from (length list.old) 0 f }
{
    for (n, place) in list.iter_mut().enumerate() {
        *place = entry(n);
    }
}

// The leaders of all segments.
fn leaders_of(d: &District) -> [usize; MOST_SEGMENTS]
    ensures { result ≡ leader_list d.now }
{
    array::from_fn(|i| rating::segment_at(d, i + 1, LEADER))
}

// The segment and the strategy of pair n, counted from 0.
fn pair(n: usize) -> (usize, usize)
    ensures segment { result.0 ≡ n / columns + 1 }
    ensures strategy { result.1 ≡ n % columns }
{
    (n / COLUMNS + 1, n % COLUMNS)
}

// The benefits of all segments and strategies.
fn fill_benefits(d: Ranged<'_>, table: &mut [u64; ENTRIES])
    requires { table.old ≡ replicate entries 0 }
    ensures { table.new ≡ benefit_list d.entry.district.now }
{
    let end = COLUMNS * d.district[SEGMENT_COUNT];
    fill_each(&mut table[..end], |n| {
        let (i, j) = pair(n);
        d.candidate_benefit(i, j)
    });
}

// The uses that strategy j on segment i makes of each resource. A slice with its length in a clause: as an array a row would be
// made by `from_fn` and then go in by `copy_from_slice`, and of `as_chunks_mut` the library does not say what the slice ends as.
fn fill_row(d: Ranged<'_>, i: usize, j: usize, row: &mut [u64])
    requires { Segment i × (length row.old ≡ most_resources) }
    ensures { row.new ≡ listed most_resources (usage_in d.entry.district.now i j) }
{
    let a = d.area_in(i, j);
    fill_each(row, |r| d.usage_in(j, r + 1, a));
}

// The uses of all segments and strategies, a row for each pair. A range: over `chunks_exact_mut` the proof of what the table
// then holds did not close.
fn fill_uses(d: Ranged<'_>, table: &mut [u64; USE_ENTRIES])
    requires { table.old ≡ replicate use_entries 0 }
    ensures { table.new ≡ usage_list d.entry.district.now }
{
    for n in 0..COLUMNS * d.district[SEGMENT_COUNT] {
        let row = &mut table[MOST_RESOURCES * n..MOST_RESOURCES * n + MOST_RESOURCES];
        let (i, j) = pair(n);
        fill_row(d, i, j, row);
    }
}

fn limits_of(d: Ranged<'_>) -> [u64; MOST_RESOURCES]
    ensures { result ≡ limit_list d.entry.district.now }
{
    by_resource(MOST_RESOURCES, |r| d.limit_in(r))
}

// The share that the use at place n is of its limit, in ten-thousandths, rounded as the quotient is; none of a limit of 0.
fn share<F: Fn(u64, u64) -> u64>(
    uses: UsageTable<'_>,
    limits: LimitList<'_>,
    n: usize,
    quotient: &F,
) -> u64
    requires place { n < use_entries }
    requires callable { (a b : ℕ) → 0 < b → F.pre quotient.now a b }
    ensures { (q : ℕ → ℕ → ℕ) → ((a : ℕ) → q a 0 ≡ 0) → ((a b v : ℕ) → 0 < b → F.post quotient.now a b v → v ≡ q a b) → result ≡ share_entry q uses.entry.entries.now limits.entry.entries.now n }
{
    let u = uses.entries[n];
    let l = limits.entries[n % MOST_RESOURCES];
    if l == 0 { 0 } else { quotient(u * 10000, l) }
}

// The shares of a table's uses, rounded as the quotient is. What stands behind those of its last segment stays.
fn fill_shares<F: Fn(u64, u64) -> u64>(
    t: TableView<'_>,
    shares: &mut [u64; USE_ENTRIES],
    quotient: F,
)
    requires { (a b : ℕ) → 0 < b → F.pre quotient a b }
    ensures { (q : ℕ → ℕ → ℕ) → ((a : ℕ) → q a 0 ≡ 0) → ((a b v : ℕ) → 0 < b → F.post quotient a b v → v ≡ q a b) → SharesBy (share_by q) (table_in t.entry) shares.new }
{
    let end = MOST_RESOURCES * (COLUMNS * t.size.segments);
    fill_each(
        &mut shares[..end],
        |n| share(t.uses, t.limits, n, &quotient),
    );
}

// The shares that phase 1 takes, rounded up. The array is lent, whatever it holds before: a plan has one for these and for the
// ceiling's, one after the other, and zeroes no second one.
pub fn fill_up_shares(t: TableView<'_>, shares: &mut [u64; USE_ENTRIES])
    ensures { SharesBy share (table_in t.entry) shares.new }
{
    fill_shares(t, shares, |a, b| a.div_ceil(b));
}

// The shares that the ceiling takes, rounded down.
pub fn fill_down_shares(t: TableView<'_>, shares: &mut [u64; USE_ENTRIES])
    ensures { SharesBy down_share (table_in t.entry) shares.new }
{
    fill_shares(t, shares, |a, b| a / b);
}

// The arrays of one plan. Each is one of its own, though they hold entries of the same pairs: each is lent as a typed list to
// the phases that read it alone.
#[derive(Drop)]
pub struct Arrays {
    pub leaders: [usize; MOST_SEGMENTS],
    pub benefits: [u64; ENTRIES],
    pub uses: [u64; USE_ENTRIES],
    pub limits: [u64; MOST_RESOURCES],
}

impl Arrays {
    // All zeros.
    pub const EMPTY: Arrays = Arrays {
        leaders: [0; MOST_SEGMENTS],
        benefits: [0; ENTRIES],
        uses: [0; USE_ENTRIES],
        limits: [0; MOST_RESOURCES],
    };

    // Fills all of them: what is proved of code over these arrays is what the rules say of the district. They are lent: given
    // back by value they are copied, 1.2 million instructions of every plan: one of 16 segments takes 5.17 for 3.96, and its bar
    // is the reference's 4.16.
    pub fn fill(&mut self, d: Ranged<'_>) -> Size
        requires { (self.old.benefits ≡ replicate entries 0) × (self.old.uses ≡ replicate use_entries 0) }
        ensures { Filled d.entry.district.now result self.new.leaders self.new.benefits self.new.uses self.new.limits }
    {
        self.leaders = leaders_of(d.district);
        fill_benefits(d, &mut self.benefits);
        fill_uses(d, &mut self.uses);
        self.limits = limits_of(d);
        Size {
            segments: d.district[SEGMENT_COUNT],
            strategies: d.district[STRATEGY_COUNT],
            resources: d.district[RESOURCE_COUNT],
        }
    }
}
