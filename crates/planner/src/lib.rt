// The plan of a district: its tables filled, the three phases one after another, and the ceiling; in blocks, first the three
// phases of each.
#![tactic(auto)]

ghost use Rattle.std.specs.Prelude.{◌≡◌, ◌+◌, ◌++◌, ◌^◌, ◌<◌, ◌≤◌, take, drop};
ghost use Rattle.laws.specs.Tables.{FitAlone};
ghost use Rattle.rules.specs.Ceiling.{ceiling};
ghost use Rattle.rules.specs.District.{District, most_segments, leader_of};
ghost use Rattle.rules.specs.Plan.{programme_from, programme_of, no_programme};
ghost use Rattle.rules.specs.Blocks.{blocks_in, block_list, block_steps, by_blocks, programme_by, plan_by};
ghost use Rattle.fill.specs.Filled.{Filled};
ghost use Rattle.planner.specs.Alone.{Alone, Holds, Placed, run_of};
ghost use Rattle.tables.specs.Arrays.{Leaders, Tabled};
ghost use Rattle.rules.specs.Table.{table_of};
ghost use Rattle.tables.specs.Views.{table_in, leaders_in};

use blocks::Blocks;
use fill::Arrays;
use rating::Ranged;
use rules::places::MOST_SEGMENTS;
use rules::{Choice, District, Programme};
use tables::{
    BenefitTable, LeaderList, LimitList, Planning, Size, TableView, USE_ENTRIES, UsageTable,
};

// A programme, and how many steps phase 1 made for it.
#[derive(Drop)]
struct Begun {
    strategies: [usize; MOST_SEGMENTS],
    steps: u64,
}

impl Begun {
    // The next block's programme takes the segments behind the last of those before it, and its steps are added.
    fn join(&mut self, end: usize, next: &Begun)
        requires end { end ≤ most_segments }
        requires fits { self.old.steps + next.now.steps < 2 ^ 64 }
        ensures strategies { self.new.strategies ≡ take end self.old.strategies ++ drop end next.now.strategies }
        ensures steps { self.new.steps ≡ self.old.steps + next.now.steps }
    {
        self.strategies[end..].copy_from_slice(&next.strategies[end..]);
        self.steps += next.steps;
    }
}

// What phases 2 and 3 make of the draft that phase 1, or the blocks, ended in after so many steps, with the table's ceiling
// beside it.
fn finish(planning: &mut Planning<'_>, steps: u64, bound: u64) -> Programme
    requires { bound ≡ ceiling (table_in planning.old.t) }
    ensures { let p = planning.old in result ≡ programme_from (table_in p.t) (leaders_in p.t) (record { last = p.draft.choice; count = steps }) }
{
    let t = planning.t;
    let pickups = phase2::pick_up(planning);
    let after_pickups = t.benefits.total(t.size, &planning.draft.choice);
    let changes = phase3::improve(planning);
    let total = t.benefits.total(t.size, &planning.draft.choice);
    Programme {
        strategies: planning.draft.choice,
        total,
        after_pickups,
        ceiling: bound,
        steps,
        pickups,
        changes,
    }
}

// The three phases over a table one after another, with its ceiling beside them. Phase 1's shares are put into a lent array.
fn phases(t: TableView<'_>, shares: &mut [u64; USE_ENTRIES], bound: u64) -> Programme
    requires fit { FitAlone (table_in t) }
    requires bound { bound ≡ ceiling (table_in t) }
    ensures { result ≡ programme_of (table_in t.entry) (leaders_in t.entry) }
{
    let draft = phase1::start(t.size, t.leaders, t.benefits, t.uses);
    let mut planning = Planning { t, draft };
    fill::fill_up_shares(t, shares);
    let steps = phase1::reduce(&mut planning, shares);
    finish(&mut planning, steps, bound)
}

// The three phases over a table by themselves: the programme that they end in.
fn phases_alone(t: TableView<'_>) -> Begun
    requires { FitAlone (table_in t) }
    ensures { Alone (table_in t.entry) (leaders_in t.entry) result }
{
    let draft = phase1::start(t.size, t.leaders, t.benefits, t.uses);
    let mut planning = Planning { t, draft };
    let mut shares = [0; USE_ENTRIES];
    fill::fill_up_shares(t, &mut shares);
    let steps = phase1::reduce(&mut planning, &shares);
    phase2::pick_up(&mut planning);
    phase3::improve(&mut planning);
    let strategies = planning.draft.choice;
    Begun { strategies, steps }
}

// The table that the arrays hold: that of the district which they are filled from.
fn table_in(size: Size, arrays: &Arrays) -> TableView<'_>
    requires { let a = arrays.now in Tabled size a.benefits a.uses a.limits × Leaders a.leaders }
    ensures { let a = arrays.now in (d : District) → Filled d size a.leaders a.benefits a.uses a.limits → Holds d result }
{
    TableView {
        size,
        leaders: LeaderList {
            entries: &arrays.leaders,
        },
        benefits: BenefitTable {
            entries: &arrays.benefits,
        },
        uses: UsageTable {
            entries: &arrays.uses,
        },
        limits: LimitList {
            entries: &arrays.limits,
        },
    }
}

// The ordinary programme of a district in the file's ranges.
pub fn programme_of(d: Ranged<'_>) -> Programme
    ensures { let d = d.entry.district.now in result ≡ programme_of (table_of d) (leader_of d) }
{
    let mut arrays = Arrays::EMPTY;
    let size = arrays.fill(d);
    let t = table_in(size, &arrays);
    // One array of shares: the ceiling takes them rounded down, then phase 1 those rounded up.
    let mut shares = [0; USE_ENTRIES];
    fill::fill_down_shares(t, &mut shares);
    let bound = ceiling::ceiling_of(t.size, t.benefits.entries, &shares);
    phases(t, &mut shares, bound)
}

// ---- a district in blocks

// The three phases of a district in the file's ranges by themselves. No ceiling is worked out.
fn alone(d: Ranged<'_>) -> Begun
    ensures { let d = d.entry.district.now in Alone (table_of d) (leader_of d) result }
{
    let mut arrays = Arrays::EMPTY;
    let size = arrays.fill(d);
    phases_alone(table_in(size, &arrays))
}

// The programme of block b by itself.
fn programme_of_block(blocks: &Blocks<'_>, b: usize) -> Begun
    requires { (1 ≤ b) × (b ≤ blocks_in blocks.now.choice.now blocks.now.ranged.district.now) }
    ensures strategies { result.strategies ≡ block_list blocks.now.choice.now blocks.now.ranged.district.now b }
    ensures steps { result.steps ≡ block_steps blocks.now.choice.now blocks.now.ranged.district.now b }
{
    let district = blocks.district(b);
    alone(Ranged {
        district: &district,
    })
}

// The programmes of all blocks joined, with their steps together. A loop: a fold would hand the joined one on by value.
fn join_all(blocks: &Blocks<'_>) -> Begun
    ensures { run_of result ≡ by_blocks blocks.now.choice.now blocks.now.ranged.district.now }
{
    let mut joined = Begun {
        strategies: [0; MOST_SEGMENTS],
        steps: 0,
    };
    for b in 0..blocks.count() {
        let next = programme_of_block(blocks, b + 1);
        joined.join(blocks.end(b), &next);
    }
    joined
}

// The programme of a district in the file's ranges from where it is begun.
fn go_on(d: Ranged<'_>, begun: &Begun) -> Programme
    requires { Placed (table_of d.district.now) begun.now.strategies }
    ensures { let d = d.entry.district.now in result ≡ programme_from (table_of d) (leader_of d) (run_of begun.now) }
{
    let mut arrays = Arrays::EMPTY;
    let size = arrays.fill(d);
    let t = table_in(size, &arrays);
    let mut downs = [0; USE_ENTRIES];
    fill::fill_down_shares(t, &mut downs);
    let bound = ceiling::ceiling_of(t.size, t.benefits.entries, &downs);
    let draft = phase1::draft_of(t.size, t.uses, begun.strategies);
    let mut planning = Planning { t, draft };
    finish(&mut planning, begun.steps, bound)
}

// The programme of a district in the file's ranges: where the choice of blocks is followed, on from theirs, else the ordinary one.
fn programme_by(d: Ranged<'_>, choice: &Choice) -> Programme
    ensures { result ≡ programme_by choice.now d.entry.district.now }
{
    match Blocks::of(d, choice) {
        None => programme_of(d),
        Some(blocks) => go_on(d, &join_all(&blocks)),
    }
}

// ---- the plan

// No strategy for any segment.
#[tactic(auto, unfolding(rules::specs::Plan::no_programme))]
pub fn no_programme() -> Programme
    ensures { result ≡ no_programme }
{
    Programme {
        strategies: [0; MOST_SEGMENTS],
        total: 0,
        after_pickups: 0,
        ceiling: 0,
        steps: 0,
        pickups: 0,
        changes: 0,
    }
}

// The plan of any values of the types: a district out of the file's ranges has no programme.
pub fn plan(d: &District, choice: &Choice) -> Programme
    ensures same { result ≡ plan_by choice.now d.now }
    ensures few { result.steps ≤ 704 }
{
    match Ranged::of(d) {
        None => no_programme(),
        Some(ranged) => programme_by(ranged, choice),
    }
}
