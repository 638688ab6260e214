// The records of a file in order, each with the place of the district at which its numbers start. That is known from which
// record it is, so that a walk over them is one over their numbers, and keeps no place. An iterator over the records would be
// a type of its own, with its laws, for four walks of a line each.
ghost use Rattle.std.specs.Prelude.{◌≡◌, ◌<◌, length, take, drop};
ghost use Rattle.rules.specs.Format.{slot_of, file_records};
ghost use Rattle.grammar.specs.Places.{start_of, Ready};
ghost use Rattle.grammar.specs.Slots.{form_number, slot_in};

use grammar::{Form, Slot};
use rules::District;

// A record, and where its numbers start. Its other methods, which read and write it, stand in `reading` and `writing`.
#[derive(Clone, Copy)]
pub struct Placed {
    pub slot: Slot,
    pub place: usize,
    pub ghost ready: { Ready (slot_in slot) place },
}

impl Placed {
    // The numbers of the record.
    pub fn numbers(self, d: &District) -> &[usize]
        ensures numbers { result.now ≡ take self.slot.places (drop self.place d.now) }
        ensures all { length result.now ≡ self.slot.places }
    {
        &d[self.place..self.place + self.slot.places]
    }
}

// The `n`-th record of a file of the form, from 0.
pub fn nth(form: Form, n: usize) -> Placed
    requires { n < file_records }
    ensures slot { slot_in result.slot ≡ slot_of (form_number form) n }
    ensures place { result.place ≡ start_of n }
{
    Placed {
        slot: grammar::slot_at(form, n),
        place: grammar::start_of(n),
    }
}
