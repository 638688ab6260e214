// A pass over the changes of a programme, up to the first that counts.
ghost use Rattle.std.specs.Prelude.{◌≡◌, ◌≤◌};
ghost use Rattle.phase3.specs.Improve.{Tops};
ghost use Rattle.phase3.specs.Memory.{Slacks};

use crate::OFFSET;
use crate::change::Change;
use crate::leaders::Changed;
use crate::memory::Memory;
use crate::pair::Pair;
use rules::places::{MOST_RESOURCES, MOST_SEGMENTS};
use tables::{Move, Planning, by_resource};

// What a pass reads: the table, the programme as it stands, each segment's greatest benefit, and each resource's slack.
#[derive(Clone, Copy)]
pub struct Pass<'a> {
    pub planning: &'a Planning<'a>,
    pub tops: &'a [u64; MOST_SEGMENTS],
    pub slacks: [u64; MOST_RESOURCES],
    pub ghost topped: { let t = planning.now.t in Tops t.size t.benefits.entries.now tops.now },
    pub ghost slack: { let p = planning.now in Slacks p.t.size.resources p.t.limits.entries.now p.draft.sums slacks },
}

// Each resource's slack.
pub fn slacks_of(planning: &Planning<'_>) -> [u64; MOST_RESOURCES]
    ensures { let p = planning.now in Slacks p.t.size.resources p.t.limits.entries.now p.draft.sums result }
{
    by_resource(planning.t.size.resources, |r| {
        planning.t.limits.entries[r - 1] + OFFSET - planning.draft.sums[r - 1]
    })
}

impl Pass<'_> {
    ghost use Rattle.std.specs.Prelude.{◌<◌};
    ghost use Rattle.rules.specs.Phases.{another, first_single, first_pair, change};
    ghost use Rattle.tables.specs.Moves.{Inside};
    ghost use Rattle.phase3.specs.Improve.{counts_one};
    ghost use Rattle.phase3.specs.Views.{table_of, leaders_of, choice_of, of_segment, of_pair, FoundBy, Kept};

    // The strategy is not the one that the segment has, and is a candidate or nothing.
    #[tactic(auto, unfolding(rules::specs::Phases::another, rules::specs::Phases::is_candidate))]
    pub fn is_another(&self, m: Move) -> bool
        requires { Inside self.now.planning.now.t.size m }
        ensures { result ≡ another (table_of self.now) (choice_of self.now) m.0 m.1 }
    {
        let planning = self.planning;
        let Move(i, a) = m;
        a != planning.draft.choice[i - 1] && (a == 0 || planning.t.benefits.at(i, a) > 0)
    }

    // The move counts. A strategy of greater benefit is another one, and a candidate.
    #[tactic(auto, using(crate::proofs::ChangeSearch::low_one, crate::proofs::ChangeSearch::high_one, tables::proofs::Moves::places))]
    fn counts_one(&self, m: Move) -> bool
        requires { Inside self.now.planning.now.t.size m }
        ensures { result ≡ counts_one (table_of self.now) (leaders_of self.now) (choice_of self.now) m.0 m.1 }
    {
        let Move(i, a) = m;
        let t = &self.planning.t;
        let choice = &self.planning.draft.choice;
        if t.benefits.at(i, a) <= t.benefits.chosen(choice, i) {
            return false;
        }
        if !self.planning.fits(m) {
            return false;
        }
        let changed = Changed {
            choice,
            change: Change::One(m),
        };
        changed.respects_leaders(t.leaders, t.size.segments)
    }

    // The first change of segment i alone that counts: nothing before strategy 1, and so on up.
    fn first_of_segment(&self, i: usize) -> Option<Change>
        requires { (1 ≤ i) × (i ≤ self.now.planning.now.t.size.segments) }
        ensures { FoundBy (of_segment i) self.now result }
    {
        (0..=self.planning.t.size.strategies)
            .find(|a| self.counts_one(Move(i, *a)))
            .map(|a| Change::One(Move(i, a)))
    }

    // The first single change that counts, segment by segment.
    fn first_one(&self) -> Option<Change>
        ensures { FoundBy first_single self.now result }
    {
        (1..=self.planning.t.size.segments).find_map(|i| self.first_of_segment(i))
    }

    // The first pair of segments i and k that counts, without a look where none can rise, or where the memory still holds.
    #[tactic(auto, using(crate::proofs::ChangeSearch::no_of, tables::proofs::Moves::places, tables::proofs::Arrays::benefit_nothing))]
    fn first_of_pair(&self, i: usize, k: usize, memory: &mut Memory) -> Option<Change>
        requires memory { Kept self.now memory.old }
        requires le_i { (1 ≤ i) × (i < k) × (k ≤ self.now.planning.now.t.size.segments) }
        ensures found { FoundBy (of_pair i k) self.now result }
        ensures memory { Kept self.now memory.new }
    {
        let pair = Pair { pass: self, i, k };
        if !pair.may_rise() || memory.rules_out(&pair) {
            return None;
        }
        memory.look(&pair)
    }

    // The first pair that counts, ordered by the lower segment, the higher one, and then the strategy of each. Loops: a proof
    // knows nothing of what a chain's closure changes, here the memory.
    #[tactic(auto, using(crate::proofs::ChangeSearch::of_low, crate::proofs::ChangeSearch::from_none, crate::proofs::ChangeSearch::pairs_end))]
    fn first_two(&self, memory: &mut Memory) -> Option<Change>
        requires { Kept self.now memory.old }
        ensures found { FoundBy first_pair self.now result }
        ensures memory { Kept self.now memory.new }
    {
        let segments = self.planning.t.size.segments;
        for i in 1..=segments {
            for k in i + 1..=segments {
                if let Some(change) = self.first_of_pair(i, k, memory) {
                    return Some(change);
                }
            }
        }
        None
    }

    // The first change that counts: single changes come before pairs. A match: with `or_else` a proof knows nothing of what the
    // closure leaves in the memory.
    pub fn first_change(&self, memory: &mut Memory) -> Option<Change>
        requires { Kept self.now memory.old }
        ensures found { FoundBy change self.now result }
        ensures memory { Kept self.now memory.new }
    {
        match self.first_one() {
            Some(change) => Some(change),
            None => self.first_two(memory),
        }
    }
}
