// A table, and a programme in the making over it.
ghost use Rattle.std.specs.Prelude.{◌≡◌};
ghost use Rattle.rules.specs.Phases.{give, within};
ghost use Rattle.tables.specs.Moves.{Inside};
ghost use Rattle.tables.specs.Views.{table_in, Drafted};

use crate::Move;
use crate::draft::Draft;
use crate::view::TableView;

#[derive(Drop)]
pub struct Planning<'a> {
    pub t: TableView<'a>,
    pub draft: Draft,
    pub ghost running: { Drafted t draft },
}

impl Planning<'_> {
    // The limits hold after the move.
    pub fn fits(&self, m: Move) -> bool
        requires { Inside self.now.t.size m }
        ensures { result ≡ within (table_in self.now.t) (give self.now.draft.choice m.0 m.1) }
    {
        self.draft.fits(self.t.size, self.t.uses, self.t.limits, m)
    }

    // The move is made.
    pub fn give(&mut self, m: Move)
        requires { Inside self.old.t.size m }
        ensures same_table { self.new.t ≡ self.old.t }
        ensures choice_after { self.new.draft.choice ≡ give self.old.draft.choice m.0 m.1 }
    {
        self.draft.give(self.t.size, self.t.uses, m);
    }
}
