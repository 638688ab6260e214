// A pair of strategies that is tried in a look at two segments.
ghost use Rattle.std.specs.Prelude.{◌≤◌};

use crate::OFFSET;
use crate::change::Change;
use crate::leaders::Changed;
use crate::look::Look;
use crate::memory::Row;
use tables::{Move, room_in};

// Segment i would get strategy a, and segment k strategy b.
#[derive(Clone, Copy)]
pub struct Trial<'a> {
    pub look: &'a Look<'a>,
    pub a: usize,
    pub b: usize,
    pub ghost strategies: { let z = look.now.pair.now.pass.now.planning.now.t.size in (a ≤ z.strategies) × (b ≤ z.strategies) },
}

impl Trial<'_> {
    ghost use Rattle.std.specs.Prelude.{◌≡◌, IfSome, true, false};
    ghost use Rattle.rules.specs.Phases.{within, another};
    ghost use Rattle.phase3.specs.Memory.{lowered, IsShort};
    ghost use Rattle.phase3.specs.Views.{size_at, table_at, choice_at, change_of, tried, room_at, excess_at, RefusalIn, PairTestIn};

    // Both segments get their strategies.
    pub fn change(&self) -> Change
        ensures { result ≡ change_of self.now }
    {
        let pair = self.look.pair;
        Change::Two(Move(pair.i, self.a), Move(pair.k, self.b))
    }

    // Resource r suffices.
    fn has_room(&self, r: usize) -> bool
        requires { (1 ≤ r) × (r ≤ (size_at self.now.look.now).resources) }
        ensures { result ≡ room_at self.now r }
    {
        let pair = self.look.pair;
        let planning = pair.pass.planning;
        room_in(
            planning.t.uses,
            &planning.draft.sums,
            &self.look.given,
            Move(pair.i, self.a),
            Move(pair.k, self.b),
            r,
        )
    }

    // The resource after the first `asked`, where it does not suffice.
    fn short_at(&self, asked: usize) -> Option<usize>
        ensures { IfSome result (λ r. (1 ≤ r) × (r ≤ (size_at self.now.look.now).resources) × (room_at self.now r ≡ false)) }
    {
        if self.look.pair.pass.planning.t.size.resources <= asked || self.has_room(asked + 1) {
            return None;
        }
        Some(asked + 1)
    }

    // A resource that does not suffice. The one after the first `asked` is asked first.
    fn short_of(&self, asked: usize) -> Option<usize>
        ensures { IsShort (size_at self.now.look.now).resources (room_at self.now) result }
    {
        if let Some(r) = self.short_at(asked) {
            return Some(r);
        }
        (1..=self.look.pair.pass.planning.t.size.resources).find(|r| !self.has_room(*r))
    }

    // The row remembers that resource r refused: its number goes down to the excess.
    fn note(&self, r: usize, row: &mut Row)
        requires { (1 ≤ r) × (r ≤ (size_at self.now.look.now).resources) }
        ensures { row.new ≡ lowered row.old r (excess_at self.now r) }
    {
        let pair = self.look.pair;
        let t = &pair.pass.planning.t;
        let more = t.uses.at(pair.i, self.a, r) + t.uses.at(pair.k, self.b, r);
        let excess = more + (t.limits.entries[r - 1] + OFFSET - self.look.given[r - 1]);
        row.excesses[r - 1] = excess.min(row.excesses[r - 1]);
    }

    // A limit does not hold. The row remembers it, and that resource is asked first next time.
    fn refused(&self, row: &mut Row, asked: &mut usize) -> bool
        ensures refusal { RefusalIn self.now row.old row.new result }
        ensures fits { result ≡ false → within (table_at self.now.look.now) (tried self.now) ≡ true }
    {
        let Some(r) = self.short_of(*asked) else {
            return false;
        };
        *asked = r - 1;
        self.note(r, row);
        true
    }

    // The same by the resource alone that is asked first.
    pub fn refused_by_last(&self, row: &mut Row, asked: usize) -> bool
        ensures { RefusalIn self.now row.old row.new result }
    {
        let Some(r) = self.short_at(asked) else {
            return false;
        };
        self.note(r, row);
        true
    }

    // The change counts, where strategy a is another one: the rise is tested first, then the limits, and leaders last. The row
    // holds for nothing from then on: that leaders refuse the pair is not remembered, since a third segment may change that.
    pub fn counts(&self, row: &mut Row, asked: &mut usize) -> bool
        requires { another (table_at self.now.look.now) (choice_at self.now.look.now) self.now.look.now.pair.now.i self.now.a ≡ true }
        ensures { PairTestIn self.now row.old row.new result }
    {
        let pair = self.look.pair;
        let pass = pair.pass;
        let t = &pass.planning.t;
        let benefits = t.benefits;
        let new = benefits.at(pair.i, self.a) + benefits.at(pair.k, self.b);
        if new <= pair.present_benefit() {
            return false;
        }
        if !pass.is_another(Move(pair.k, self.b)) {
            return false;
        }
        if self.refused(row, asked) {
            return false;
        }
        row.holds_for = None;
        let changed = Changed {
            choice: &pass.planning.draft.choice,
            change: self.change(),
        };
        changed.respects_leaders(t.leaders, t.size.segments)
    }
}
