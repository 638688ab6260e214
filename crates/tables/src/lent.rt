// The parts of a table, each a lent array with what is known of it. The arrays are flat: what is written and proved of a
// table goes by one place (the filling, the ceiling's costs, the zeros behind the last segment), and a bound of all entries
// is one fact; nested, benefits would be two deep in each of these, and uses three. That an entry is there, Cell, stays a
// clause, of numbers and of a Move: it is a fact of a loop's numbers for as long as one entry is read, and a value that held
// it would be made anew for each.
ghost use Rattle.std.specs.Prelude.{◌≡◌, ℕ, ◌-◌, ◌^◌, ◌<◌, ◌≤◌, List, get_or, length};
ghost use Rattle.rules.specs.District.{most_segments, most_resources};
ghost use Rattle.rules.specs.Phases.{strategy_at, total, led};
ghost use Rattle.tables.specs.Arrays.{benefit_at, usage_at, tables, leader_in, Leaders, Benefits, Uses, Limits, Bounded, Cell, Chosen};

use crate::rows::{entry, row_of, use_entry};
use crate::{ENTRIES, Size, USE_ENTRIES};
use rules::places::{MOST_RESOURCES, MOST_SEGMENTS};

// The leader of each segment; 0 is none, as in the file and the rules.
#[derive(Clone, Copy)]
pub struct LeaderList<'a> {
    pub entries: &'a [usize; MOST_SEGMENTS],
    pub ghost held: { Leaders entries.now },
}

// The benefit of each strategy on each segment.
#[derive(Clone, Copy)]
pub struct BenefitTable<'a> {
    pub entries: &'a [u64; ENTRIES],
    pub ghost held: { Benefits entries.now },
}

// What each strategy on each segment uses of each resource.
#[derive(Clone, Copy)]
pub struct UsageTable<'a> {
    pub entries: &'a [u64; USE_ENTRIES],
    pub ghost held: { Uses entries.now },
}

// The limit of each resource.
#[derive(Clone, Copy)]
pub struct LimitList<'a> {
    pub entries: &'a [u64; MOST_RESOURCES],
    pub ghost held: { Limits entries.now },
}

impl LeaderList<'_> {
    // Segment i may have something: it has no leader, or one that has something.
    #[tactic(auto, unfolding(rules::specs::Phases::led))]
    pub fn is_led(self, choice: &[usize; MOST_SEGMENTS], i: usize) -> bool
        requires le_i { (1 ≤ i) × (i ≤ most_segments) }
        ensures { result ≡ led (leader_in self.entry.entries.now) (strategy_at choice.now) i }
    {
        let leader = self.entries[i - 1];
        leader == 0 || choice[leader - 1] > 0
    }
}

impl BenefitTable<'_> {
    // The benefit of strategy j on segment i; 0 for nothing.
    pub fn at(self, i: usize, j: usize) -> u64
        requires { Cell i j }
        ensures value { result ≡ benefit_at self.entry.entries.now i j }
        ensures small { result < 2 ^ 40 }
    {
        self.entries[entry(i, j)]
    }

    // The benefit of the strategy that segment i has.
    pub fn chosen(self, choice: &[usize; MOST_SEGMENTS], i: usize) -> u64
        requires cell { Cell i (strategy_at choice.now i) }
        ensures value { result ≡ benefit_at self.entry.entries.now i (strategy_at choice.now i) }
        ensures small { result < 2 ^ 40 }
    {
        self.at(i, choice[i - 1])
    }

    // The total benefit of a programme.
    pub fn total(self, z: Size, choice: &[usize; MOST_SEGMENTS]) -> u64
        requires { Bounded z × Chosen z choice.now }
        ensures { (u l : List ℕ) → result ≡ total (tables z self.entry.entries.now u l) choice.now }
    {
        (0..z.segments).map(|i| self.chosen(choice, i + 1)).sum()
    }
}

impl<'a> UsageTable<'a> {
    // What strategy j on segment i uses of resource r; 0 for nothing.
    pub fn at(self, i: usize, j: usize, r: usize) -> u64
        requires { Cell i j × (1 ≤ r) × (r ≤ most_resources) }
        ensures value { result ≡ usage_at self.entry.entries.now i j r }
        ensures small { result < 2 ^ 41 }
    {
        self.entries[use_entry(i, j, r)]
    }

    // The same of each resource.
    pub(crate) fn row(self, i: usize, j: usize) -> &'a [u64; MOST_RESOURCES]
        requires { Cell i j }
        ensures { (r : ℕ) → 1 ≤ r → r ≤ most_resources → get_or result.now (r - 1) 0 ≡ usage_at self.entry.entries.now i j r }
    {
        row_of(self.entries, i, j)
    }
}
