// Whether leaders are respected once a change is made.
ghost use Rattle.std.specs.Prelude.{◌≡◌, ◌≤◌, length};
ghost use Rattle.rules.specs.District.{most_segments};
ghost use Rattle.phase3.specs.Improve.{first_segment, last_segment};

use crate::change::Change;
use rules::places::MOST_SEGMENTS;
use tables::{LeaderList, Move};

// A programme after a change. The places stay beside the array that says them: tried without, `strategy` did not close.
#[derive(Clone, Copy)]
pub struct Changed<'a> {
    pub choice: &'a [usize; MOST_SEGMENTS],
    pub change: Change,
    pub ghost places: { length choice.now ≡ most_segments },
    pub ghost segments: { (1 ≤ first_segment change) × (1 ≤ last_segment change) },
}

impl Changed<'_> {
    ghost use Rattle.rules.specs.Phases.{strategy_at, heeds, respects};
    ghost use Rattle.tables.specs.Arrays.{leader_in};
    ghost use Rattle.phase3.specs.Views.{changed};

    // The strategy of segment m.
    fn strategy(&self, m: usize) -> usize
        requires { (1 ≤ m) × (m ≤ most_segments) }
        ensures { result ≡ strategy_at (changed self.now) m }
    {
        match self.change {
            Change::Two(_, Move(k, b)) if m == k => b,
            Change::One(Move(i, a)) | Change::Two(Move(i, a), _) if m == i => a,
            _ => self.choice[m - 1],
        }
    }

    // Segment m has nothing, or no leader, or one that has something. Not by LeaderList's is_led: the programme after a change is
    // no array, which that one takes.
    #[tactic(auto, unfolding(rules::specs::Phases::heeds, rules::specs::Phases::led))]
    fn heeds_leader(&self, leaders: LeaderList<'_>, m: usize) -> bool
        requires { (1 ≤ m) × (m ≤ most_segments) }
        ensures { result ≡ heeds (leader_in leaders.entry.entries.now) (strategy_at (changed self.now)) m }
    {
        let leader = leaders.entries[m - 1];
        leader == 0 || self.strategy(m) == 0 || self.strategy(leader) > 0
    }

    // Each of the first segments does.
    pub fn respects_leaders(&self, leaders: LeaderList<'_>, segments: usize) -> bool
        requires { segments ≤ most_segments }
        ensures { result ≡ respects (leader_in leaders.entry.entries.now) segments (changed self.now) }
    {
        (0..segments).all(|m| self.heeds_leader(leaders, m + 1))
    }
}
