// A look at two segments: the first of their changes that counts.
ghost use Rattle.std.specs.Prelude.{◌≡◌};
ghost use Rattle.phase3.specs.Memory.{Setting};

use crate::UNREACHED;
use crate::change::Change;
use crate::memory::Row;
use crate::pair::Pair;
use crate::trial::Trial;
use rules::places::MOST_RESOURCES;
use tables::{Move, budgets};

// The pair, and the budgets where both segments give up what they have.
#[derive(Clone, Copy)]
pub struct Look<'a> {
    pub pair: &'a Pair<'a>,
    pub given: [u64; MOST_RESOURCES],
    pub ghost setting: { let p = pair.now.pass.now.planning.now in Setting p.t.size p.t.benefits.entries.now p.t.uses.entries.now p.t.limits.entries.now p.draft.choice p.draft.sums given pair.now.i pair.now.k },
}

impl<'a> Pair<'a> {
    // Both segments give up what they have.
    pub fn look(&'a self) -> Look<'a>
        ensures { result.pair.now ≡ self.entry.now }
    {
        let planning = self.pass.planning;
        let t = &planning.t;
        let choice = &planning.draft.choice;
        let given = budgets(
            t.size.resources,
            t.uses,
            t.limits,
            Move(self.i, choice[self.i - 1]),
            Move(self.k, choice[self.k - 1]),
        );
        Look { pair: self, given }
    }
}

impl<'a> Look<'a> {
    ghost use Rattle.std.specs.Prelude.{◌+◌, ◌≤◌, Some, MatchOption};
    ghost use Rattle.phase3.specs.Views.{size_at, FoundAt, HoldsAt, SearchingAt, WithTestAt};

    // A pair with strategy a for segment i may count: it is another one, more than the present with the greatest benefit of
    // segment k, and the resource asked first does not refuse it where segment k gets nothing.
    fn with_may_count(&'a self, a: usize, row: &mut Row, asked: usize) -> bool
        requires { a ≤ (size_at self.now).strategies }
        ensures { WithTestAt self.now a row.old row.new result }
    {
        let pair = self.pair;
        let pass = pair.pass;
        if !pass.is_another(Move(pair.i, a)) {
            return false;
        }
        if pass.planning.t.benefits.at(pair.i, a) + pass.tops[pair.k - 1]
            <= pair.present_benefit()
        {
            return false;
        }
        let alone = Trial {
            look: self,
            a,
            b: 0,
        };
        !alone.refused_by_last(row, asked)
    }

    // The first change with strategy a for segment i that counts, by the strategy of segment k. The row remembers which limits
    // refused the others. It is one of the memory's rows, and `asked` stands beside them, so one struct for both would be made
    // of two loans for each pair. A loop, as in search: a proof knows nothing of what a chain's closure changes, here both.
    fn first_with(&'a self, a: usize, row: &mut Row, asked: &mut usize) -> Option<Change>
        requires { (a ≤ (size_at self.now).strategies) × SearchingAt self.now row.old a }
        ensures { MatchOption result (SearchingAt self.now row.new (a + 1)) (λ change. FoundAt self.now.pair.now (Some change) × HoldsAt self.now row.new) }
    {
        if !self.with_may_count(a, row, *asked) {
            return None;
        }
        for b in 0..=self.pair.pass.planning.t.size.strategies {
            let trial = Trial { look: self, a, b };
            if trial.counts(row, asked) {
                return Some(trial.change());
            }
        }
        None
    }

    // The first change of both segments that counts, by the strategy of each. A loop, as first_with's.
    fn search(&'a self, row: &mut Row, asked: &mut usize) -> Option<Change>
        requires { SearchingAt self.now row.old 0 }
        ensures found { FoundAt self.now.pair.now result }
        ensures holds { HoldsAt self.now row.new }
    {
        for a in 0..=self.pair.pass.planning.t.size.strategies {
            if let Some(change) = self.first_with(a, row, asked) {
                return Some(change);
            }
        }
        None
    }

    // The same with a row that is made anew.
    pub fn first_change(&'a self, row: &mut Row, asked: &mut usize) -> Option<Change>
        ensures found { FoundAt self.now.pair.now result }
        ensures holds { HoldsAt self.now row.new }
    {
        *row = Row {
            holds_for: Some(self.pair.strategies()),
            excesses: [UNREACHED; MOST_RESOURCES],
        };
        self.search(row, asked)
    }
}
