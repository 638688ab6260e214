// Tests of the limits where two segments move, by the running sums of what is used.
ghost use Rattle.std.specs.Prelude.{◌≡◌, ℕ, ◌≤◌};
ghost use Rattle.base.specs.Over.{all};
ghost use Rattle.rules.specs.District.{most_resources};
ghost use Rattle.tables.specs.Arrays.{Cell};
ghost use Rattle.tables.specs.Moves.{Budgets, Testable, room_for};

use crate::Move;
use crate::lent::{LimitList, UsageTable};
use crate::resources::by_resource;
use rules::places::MOST_RESOURCES;

// Resource r suffices where both moves are made. Sums and budgets go beside the moves: who asks keeps the budgets over many
// moves, and the sums are the programme's.
#[tactic(auto, unfolding(crate::specs::Moves::room_for))]
pub fn room_in(
    uses: UsageTable<'_>,
    sums: &[u64; MOST_RESOURCES],
    budgets: &[u64; MOST_RESOURCES],
    first: Move,
    second: Move,
    r: usize,
) -> bool
    requires testable { Testable r sums.now budgets.now }
    requires cell { Cell first.0 first.1 × Cell second.0 second.1 × (1 ≤ r) }
    ensures { result ≡ room_for uses.entry.entries.now sums.now budgets.now first.0 first.1 second.0 second.1 r }
{
    let Move(i, a) = first;
    let Move(k, b) = second;
    let more = uses.at(i, a, r) + uses.at(k, b, r);
    sums[r - 1] + more <= budgets[r - 1]
}

// Every resource suffices where both moves are made.
pub(crate) fn room(
    resources: usize,
    uses: UsageTable<'_>,
    sums: &[u64; MOST_RESOURCES],
    budgets: &[u64; MOST_RESOURCES],
    first: Move,
    second: Move,
) -> bool
    requires testable { Testable resources sums.now budgets.now }
    requires cell { Cell first.0 first.1 × Cell second.0 second.1 }
    ensures { result ≡ all resources (room_for uses.entry.entries.now sums.now budgets.now first.0 first.1 second.0 second.1) }
{
    (0..resources).all(|r| room_in(uses, sums, budgets, first, second, r + 1))
}

// The budget of each resource where the segments give up what they have.
pub fn budgets(
    resources: usize,
    uses: UsageTable<'_>,
    limits: LimitList<'_>,
    first: Move,
    second: Move,
) -> [u64; MOST_RESOURCES]
    requires resources_le_most_resources { resources ≤ most_resources }
    requires cell { Cell first.0 first.1 × Cell second.0 second.1 }
    ensures { Budgets resources uses.entry.entries.now limits.entry.entries.now first.0 first.1 second.0 second.1 result }
{
    let Move(i, x) = first;
    let Move(k, y) = second;
    by_resource(resources, |r| {
        limits.entries[r - 1] + (uses.at(i, x, r) + uses.at(k, y, r))
    })
}
