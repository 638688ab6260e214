// What stands in the columns of each line under the heading.
ghost use Rattle.std.specs.Prelude.{◌≡◌, ◌^◌, ◌≤◌, ◌<◌};
ghost use Rattle.rating.specs.Numbers.{Segment, Resource};
ghost use Rattle.rules.specs.District.{limit_of};
ghost use Rattle.rules.specs.Page.{whole_units, segment_row, total_row, limits_row};
ghost use Rattle.rules.specs.Phases.{chosen_usage, used as Phases·used};
ghost use Rattle.rules.specs.Table.{table_of};
ghost use Rattle.pages.specs.Cells.{texts, Shows};

use crate::cells::{COLUMNS, Cell};
use rating::Ranged;
use rules::Programme;
use rules::places::{LENGTH, RESOURCE_COUNT, WIDTH};

// A use in whole units, rounded up.
fn whole_units(x: u64) -> usize
    requires { x < 2 ^ 48 }
    ensures { result ≡ whole_units x }
{
    x.div_ceil(100_000) as usize
}

// What a page shows: a district in range, and a programme.
#[derive(Clone, Copy)]
pub struct Sheet<'d, 'p> {
    pub ranged: Ranged<'d>,
    pub programme: &'p Programme,
}

impl Sheet<'_, '_> {
    // ---- cells of a resource: blank where the district does not have it

    #[tactic(auto, using(std::proofs::lemmas::Bool::Decides::nat_tests), unfolding(crate::specs::Cells::text_of))]
    fn resource_cell(&self, r: usize, n: usize) -> Cell
        ensures { Shows self.now.ranged.district.now (λ _. n) r result }
    {
        if r <= self.ranged.district[RESOURCE_COUNT] {
            Cell::Number(n)
        } else {
            Cell::Blank
        }
    }

    #[tactic(auto, using(rating::proofs::Uses::chosen_le))]
    fn use_cell(&self, i: usize, r: usize) -> Cell
        requires { Resource r × Segment i }
        ensures { Shows self.now.ranged.district.now (λ r. whole_units (chosen_usage (table_of self.now.ranged.district.now) self.now.programme.now.strategies r i)) r result }
    {
        let used = self.ranged.chosen_usage(&self.programme.strategies, r, i);
        self.resource_cell(r, whole_units(used))
    }

    #[tactic(auto, using(rating::proofs::Uses::used_le))]
    fn sum_cell(&self, r: usize) -> Cell
        requires { Resource r }
        ensures { Shows self.now.ranged.district.now (λ r. whole_units (Phases·used (table_of self.now.ranged.district.now) self.now.programme.now.strategies r)) r result }
    {
        let used = self.ranged.used(&self.programme.strategies, r);
        self.resource_cell(r, whole_units(used))
    }

    #[tactic(auto, unfolding(rules::specs::District::limit_of))]
    fn limit_cell(&self, r: usize) -> Cell
        requires { Resource r }
        ensures { Shows self.now.ranged.district.now (limit_of self.now.ranged.district.now) r result }
    {
        self.resource_cell(r, rating::limit_at(self.ranged.district, r))
    }

    // ---- rows

    // Each names its four cells of resources: a function over a closure would give an array of them, to be taken apart for the row.

    #[tactic(auto, unfolding(rules::specs::Page::segment_row, rules::specs::Page::by_resource, base::specs::Over::listed_from, crate::specs::Cells::text_of, crate::specs::Cells::texts, rules::specs::District::length_of, rules::specs::District::width_of, rules::specs::Phases::chosen_benefit, rules::specs::Table::table_of))]
    pub fn segment_row(&self, i: usize) -> [Cell; COLUMNS]
        requires { Segment i }
        ensures { texts result ≡ segment_row self.now.ranged.district.now self.now.programme.now.strategies i }
    {
        let j = self.programme.strategies[i - 1];
        let benefit = self.ranged.candidate_benefit(i, j);
        [
            Cell::Number(i),
            Cell::Miles(rating::segment_at(self.ranged.district, i, LENGTH)),
            Cell::Number(rating::segment_at(self.ranged.district, i, WIDTH)),
            Cell::Number(j),
            Cell::Number(benefit as usize),
            self.use_cell(i, 1),
            self.use_cell(i, 2),
            self.use_cell(i, 3),
            self.use_cell(i, 4),
        ]
    }

    #[tactic(auto, unfolding(rules::specs::Page::total_row, rules::specs::Page::by_resource, base::specs::Over::listed_from, crate::specs::Cells::text_of, crate::specs::Cells::texts))]
    pub fn total_row(&self) -> [Cell; COLUMNS]
        ensures { texts result ≡ total_row self.now.ranged.district.now self.now.programme.now }
    {
        [
            Cell::Blank,
            Cell::Blank,
            Cell::Blank,
            Cell::Blank,
            Cell::Number(self.programme.total as usize),
            self.sum_cell(1),
            self.sum_cell(2),
            self.sum_cell(3),
            self.sum_cell(4),
        ]
    }

    #[tactic(auto, unfolding(rules::specs::Page::limits_row, rules::specs::Page::by_resource, base::specs::Over::listed_from, crate::specs::Cells::text_of, crate::specs::Cells::texts))]
    pub fn limits_row(&self) -> [Cell; COLUMNS]
        ensures { texts result ≡ limits_row self.now.ranged.district.now }
    {
        [
            Cell::Blank,
            Cell::Blank,
            Cell::Blank,
            Cell::Blank,
            Cell::Blank,
            self.limit_cell(1),
            self.limit_cell(2),
            self.limit_cell(3),
            self.limit_cell(4),
        ]
    }
}
