// The changes that are made.
ghost use Rattle.std.specs.Prelude.{◌≡◌};
ghost use Rattle.phase3.specs.Improve.{after, InTable};

use tables::{Move, Planning};

// One segment moves, or two at once.
#[derive(Clone, Copy)]
pub enum Change {
    One(Move),
    Two(Move, Move),
}

impl Change {
    pub fn make(self, planning: &mut Planning<'_>)
        requires { InTable planning.old.t.size self }
        ensures same_table { planning.new.t ≡ planning.old.t }
        ensures choice_after { planning.new.draft.choice ≡ after planning.old.draft.choice self }
    {
        match self {
            Change::One(only) => planning.give(only),
            Change::Two(first, second) => {
                planning.give(first);
                planning.give(second);
            }
        }
    }
}
