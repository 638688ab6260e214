// Two segments that may change at once.
ghost use Rattle.std.specs.Prelude.{◌<◌, ◌≤◌};

use crate::pass::Pass;

// Segments i and k in a pass.
#[derive(Clone, Copy)]
pub struct Pair<'a> {
    pub pass: &'a Pass<'a>,
    pub i: usize,
    pub k: usize,
    pub ghost ordered: { (1 ≤ i) × (i < k) × (k ≤ pass.now.planning.now.t.size.segments) },
}

impl Pair<'_> {
    ghost use Rattle.std.specs.Prelude.{◌≡◌, ◌^◌};
    ghost use Rattle.rules.specs.Phases.{strategy_at};
    ghost use Rattle.phase3.specs.Improve.{present, pair_may_rise};
    ghost use Rattle.phase3.specs.Views.{table_of, choice_of};

    // The present benefit of both.
    pub fn present_benefit(&self) -> u64
        ensures value { let p = self.now.pass.now in result ≡ present (table_of p) (choice_of p) self.now.i self.now.k }
        ensures small { result < 2 ^ 41 }
    {
        let planning = self.pass.planning;
        let benefits = planning.t.benefits;
        let choice = &planning.draft.choice;
        benefits.chosen(choice, self.i) + benefits.chosen(choice, self.k)
    }

    // The greatest benefits of both are more than the present ones.
    pub fn may_rise(&self) -> bool
        ensures { let p = self.now.pass.now in result ≡ pair_may_rise (table_of p) (choice_of p) self.now.i self.now.k }
    {
        let tops = self.pass.tops;
        self.present_benefit() < tops[self.i - 1] + tops[self.k - 1]
    }

    // The strategies that they have.
    pub fn strategies(&self) -> (usize, usize)
        ensures { let c = choice_of self.now.pass.now in result ≡ (strategy_at c self.now.i, strategy_at c self.now.k) }
    {
        let choice = &self.pass.planning.draft.choice;
        (choice[self.i - 1], choice[self.k - 1])
    }
}
