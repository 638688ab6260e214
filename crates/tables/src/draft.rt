// A programme in the making, with the running sum of what it uses of each resource.
ghost use Rattle.std.specs.Prelude.{◌≡◌, ℕ, List};
ghost use Rattle.rules.specs.Phases.{give, within};
ghost use Rattle.tables.specs.Arrays.{tables, Running};
ghost use Rattle.tables.specs.Moves.{Inside};

use crate::lent::{LimitList, UsageTable};
use crate::limits::{budgets, room};
use crate::rows::shift;
use crate::{Move, Size};
use rules::places::{MOST_RESOURCES, MOST_SEGMENTS};

// The strategy of each segment, 0 for nothing, and the sums. Its methods promise of uses and limits alone, and ask for no
// benefits or leaders; Planning's, which call them, have the whole table. That a move is Inside the size stays a clause,
// since a Move is of no table.
#[derive(Drop)]
pub struct Draft {
    pub choice: [usize; MOST_SEGMENTS],
    pub sums: [u64; MOST_RESOURCES],
}

impl Draft {
    // The limits hold after the move. The test is of two moves; the second one here is of nothing, which uses nothing.
    pub fn fits(&self, z: Size, uses: UsageTable<'_>, limits: LimitList<'_>, m: Move) -> bool
        requires running { Running z uses.entries.now self.now.choice self.now.sums }
        requires inside { Inside z m }
        ensures { (b : List ℕ) → result ≡ within (tables z b uses.entry.entries.now limits.entry.entries.now) (give self.now.choice m.0 m.1) }
    {
        let Move(i, _) = m;
        let nothing = Move(i, 0);
        let given = budgets(
            z.resources,
            uses,
            limits,
            Move(i, self.choice[i - 1]),
            nothing,
        );
        room(z.resources, uses, &self.sums, &given, m, nothing)
    }

    // The move is made, and the sums go along.
    pub fn give(&mut self, z: Size, uses: UsageTable<'_>, m: Move)
        requires running { Running z uses.entries.now self.old.choice self.old.sums }
        requires inside { Inside z m }
        ensures running_2 { Running z uses.entry.entries.now self.new.choice self.new.sums }
        ensures choice_after { self.new.choice ≡ give self.old.choice m.0 m.1 }
    {
        let Move(i, a) = m;
        let x = self.choice[i - 1];
        shift(
            &mut self.sums[..z.resources],
            uses.row(i, x),
            uses.row(i, a),
        );
        self.choice[i - 1] = a;
    }
}
