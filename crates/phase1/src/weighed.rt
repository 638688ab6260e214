// A programme weighed against the limits: surpluses, pulls, and the weakest segment.
ghost use Rattle.std.specs.Prelude.{◌≡◌, List, ℕ, ◌-◌, ◌*◌, ◌/◌, ◌^◌, ◌<◌, ◌≤◌, get_or, length};
ghost use Rattle.base.specs.Over.{sum};
ghost use Rattle.rules.specs.District.{most_resources};
ghost use Rattle.rules.specs.Phases.{within, surplus, pull, weakest};
ghost use Rattle.tables.specs.Arrays.{tables, Running};
ghost use Rattle.tables.specs.Views.{table_in, leaders_in};
ghost use Rattle.phase1.specs.Reduce.{Shares, ShareSums, Measured, Surpluses, ToStep, ratio_at, row_pull, segment_in};
ghost use Rattle.phase1.specs.Views.{SharesIn};

use crate::shares::Summed;
use rules::places::MOST_RESOURCES;
use tables::{Planning, by_resource, row_of};

// A table and a programme in the making, weighed by shares.
#[derive(Clone, Copy)]
pub(crate) struct Weighed<'a> {
    pub(crate) planning: &'a Planning<'a>,
    pub(crate) summed: &'a Summed<'a>,
    ghost shares_are: { SharesIn planning.now.t summed.now.shares.now },
    ghost measured: { Measured planning.now.t.size summed.now.shares.now planning.now.draft.choice },
    ghost sums_are: { ShareSums planning.now.t.size summed.now.shares.now planning.now.draft.choice summed.now.sums },
}

impl Weighed<'_> {
    // Every limit holds.
    fn limits_hold(&self) -> bool
        ensures { result ≡ within (table_in self.now.planning.now.t) self.now.planning.now.draft.choice }
    {
        let Planning { t, draft } = self.planning;
        draft.sums[..t.size.resources]
            .iter()
            .zip(t.limits.entries)
            .all(|(sum, limit)| sum <= limit)
    }

    // The surplus of resource r: what its shares are beyond 10,000, where its limit does not hold.
    fn surplus(&self, r: usize) -> u64
        requires { (1 ≤ r) × (r ≤ self.now.planning.now.t.size.resources) }
        ensures { result ≡ surplus (table_in self.now.planning.now.t) self.now.planning.now.draft.choice r }
    {
        let Planning { t, draft } = self.planning;
        if draft.sums[r - 1] <= t.limits.entries[r - 1] {
            return 0;
        }
        self.summed.sums[r - 1].saturating_sub(10_000)
    }

    // The surplus of each resource.
    fn surpluses(&self) -> [u64; MOST_RESOURCES]
        ensures { Surpluses (table_in self.now.planning.now.t) self.now.planning.now.draft.choice result }
    {
        by_resource(self.planning.t.size.resources, |r| self.surplus(r))
    }

    // The pull of segment i: the shares of its strategy times the surpluses. These go along, as no field of the type: surplus, a
    // method of it, makes them, and limits_hold is asked before they are there.
    fn pull(&self, over: &[u64; MOST_RESOURCES], i: usize) -> u64
        requires over { Surpluses (table_in self.now.planning.now.t) self.now.planning.now.draft.choice over.now }
        requires le_i { (1 ≤ i) × (i ≤ self.now.planning.now.t.size.segments) }
        ensures { result ≡ pull (table_in self.now.planning.now.t) self.now.planning.now.draft.choice i }
    {
        let row = row_of(self.summed.shares, i, self.planning.draft.choice[i - 1]);
        pull_by(self.planning.t.size.resources, row, over)
    }

    // The ratio of segment i, with its number; none where it does not pull.
    fn ratio(&self, over: &[u64; MOST_RESOURCES], i: usize) -> Option<(u64, usize)>
        requires over { Surpluses (table_in self.now.planning.now.t) self.now.planning.now.draft.choice over.now }
        requires le_i { (1 ≤ i) × (i ≤ self.now.planning.now.t.size.segments) }
        ensures { result ≡ ratio_at (table_in self.now.planning.now.t) self.now.planning.now.draft.choice i }
    {
        let pulled = self.pull(over, i);
        if pulled == 0 {
            return None;
        }
        let Planning { t, draft } = self.planning;
        let benefit = t.benefits.chosen(&draft.choice, i);
        Some((ratio_of(benefit, pulled), i))
    }

    // Of the segments that pull the one of least ratio, of equals the lowest. It reads no uses, so it is the weakest segment of every
    // table, whatever its uses are, whose shares and sums they are.
    fn weakest(&self) -> Option<usize>
        ensures segment { result ≡ segment_in (weakest (table_in self.now.planning.now.t) self.now.planning.now.draft.choice) }
        ensures any_uses { let p = self.now.planning.now in let t = p.t in let b = t.benefits.entries.now in let l = t.limits.entries.now in (u : List ℕ) → Shares t.size b u l self.now.summed.now.shares.now → Running t.size u p.draft.choice p.draft.sums → result ≡ segment_in (weakest (tables t.size b u l) p.draft.choice) }
    {
        let over = self.surpluses();
        (0..self.planning.t.size.segments)
            .filter_map(|i| self.ratio(&over, i + 1))
            .min()
            .map(|(_, i)| i)
    }

    // The segment to step, the weakest; none where every limit holds.
    pub(crate) fn to_step(&self) -> Option<usize>
        ensures { ToStep (table_in self.now.planning.now.t) (leaders_in self.now.planning.now.t) self.now.planning.now.draft.choice result }
    {
        if self.limits_hold() {
            return None;
        }
        self.weakest()
    }
}

// A row of shares times the surpluses. Both are taken as numbers of 32 bits, which they fit: two products of such are one
// instruction, and two of 64 bits are ten.
fn pull_by(resources: usize, row: &[u64; MOST_RESOURCES], over: &[u64; MOST_RESOURCES]) -> u64
    requires resources_le_most_resources { resources ≤ most_resources }
    requires by_index { ((r : ℕ) → 1 ≤ r → r ≤ resources → get_or row.now (r - 1) 0 ≤ 10_000) × ((r : ℕ) → 1 ≤ r → r ≤ resources → get_or over.now (r - 1) 0 ≤ 640_000) }
    ensures { result ≡ sum resources (row_pull row.now over.now) }
{
    row[..resources]
        .iter()
        .zip(over)
        .map(|(share, beyond)| u64::from(*share as u32) * u64::from(*beyond as u32))
        .sum()
}

// What a benefit gives for a pull, in millionths.
fn ratio_of(benefit: u64, pulled: u64) -> u64
    requires { (benefit < 2 ^ 40) × (1 ≤ pulled) }
    ensures { result ≡ benefit * 1_000_000 / pulled }
{
    benefit * 1_000_000 / pulled
}
