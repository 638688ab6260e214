// What two offices on one unit share of a district: the counts other than N, the greatest ratings, the strategies and
// the pavement types (rules/specs/District.antt).
#![tactic(auto)]

ghost use Rattle.std.specs.Prelude.{◌≡◌, ◌<◌};
ghost use Rattle.rules.specs.District.{district_places, value_at, is_shared, shared_tables, same_tables};

use rules::District;
use rules::places::{COUNT_PLACES, GREATEST, SEGMENTS, STRATEGY_COUNT};
use std::array;

#[tactic(auto, using(std::proofs::lemmas::Bool::Decides::nat_tests), unfolding(rules::specs::District::is_shared))]
fn is_shared(place: usize) -> bool
    ensures { result ≡ is_shared place }
{
    matches!(place, STRATEGY_COUNT..COUNT_PLACES | GREATEST..SEGMENTS)
}

// The number at a place of the shared tables: 0 where it is not shared.
#[tactic(auto, using(crate::proofs::Tables::shared_value, crate::proofs::Tables::own_value))]
fn shared_at(d: &District, place: usize) -> usize
    requires { place < district_places }
    ensures { result ≡ value_at (shared_tables d.now) place }
{
    if is_shared(place) { d[place] } else { 0 }
}

// The shared tables alone: a district without a segment, whose limits are 0.
pub fn shared_tables(d: &District) -> District
    ensures { result ≡ shared_tables d.now }
{
    array::from_fn(|place| shared_at(d, place))
}

// Whether no shared number differs.
#[tactic(auto, using(crate::proofs::Tables::pointwise_same), unfolding(rules::specs::District::same_tables))]
pub fn same_tables(d: &District, e: &District) -> bool
    ensures { result ≡ same_tables d.now e.now }
{
    shared_tables(d) == shared_tables(e)
}
