// `slot_at`, `is_present` and `field_at` for a form and a kind of any number, as the rules have them: `Form` and `Kind` are for
// those that there are.
ghost use Rattle.std.specs.Prelude.{◌≡◌, eqb};
ghost use Rattle.rules.specs.Format.{leader_form, slot_of, present, kind_field, field_at};
ghost use Rattle.grammar.specs.Slots.{form_number, numbered_in};

use crate::{Form, Kind};
use rules::{District, Field, places};

// A record of a file, with the numbers of its form and of its kind.
#[derive(Clone, Copy)]
pub struct Slot {
    pub form: usize,
    pub kind: usize,
    pub places: usize,
    pub nth: usize,
}

// The `n`-th record of a file of the form, from 0.
pub fn slot_at(form: usize, n: usize) -> Slot
    ensures { numbered_in result ≡ slot_of form n }
{
    let plain = crate::slot_at(Form::Plain, n);
    let kind = if n == 0 { form } else { plain.kind_number() };
    Slot {
        form,
        kind,
        places: plain.places,
        nth: plain.nth,
    }
}

// Whether the district has the record.
pub fn is_present(d: &District, s: Slot) -> bool
    ensures { result ≡ present d.now (numbered_in s) }
{
    match s.kind {
        4 => s.nth < d[places::STRATEGY_COUNT],
        5 => s.nth < d[places::PAVEMENT_COUNT],
        6 => s.nth < d[places::SEGMENT_COUNT],
        _ => true,
    }
}

// The form that has a leader where the form of the number has one.
fn form_of(number: usize) -> Form
    ensures { eqb (form_number result) leader_form ≡ eqb number leader_form }
{
    if number == Form::Leaders as usize {
        Form::Leaders
    } else {
        Form::Plain
    }
}

// A record of its form's number has the counts, also where that is the number of another kind; one of no kind has no numbers.
fn kind_field(d: &District, s: Slot, n: usize) -> Field
    ensures { result ≡ kind_field d.now (numbered_in s) n }
{
    if s.kind == s.form {
        return crate::count_field(n);
    }
    match s.kind {
        2 => crate::limit_field(d, n),
        3 => crate::greatest_field(d, n),
        4 => crate::strategy_field(d, n),
        5 => crate::pavement_field(d, n),
        6 => {
            let segment = crate::Slot {
                form: form_of(s.form),
                kind: Kind::Segment,
                places: s.places,
                nth: s.nth,
            };
            crate::segment_field(d, segment, n)
        }
        _ => crate::ABSENT,
    }
}

// The `n`-th number of the record `s`, from 0.
#[tactic(auto, unfolding(rules::specs::Format::field_at))]
pub fn field_at(d: &District, s: Slot, n: usize) -> Field
    ensures { result ≡ field_at d.now (numbered_in s) n }
{
    if is_present(d, s) {
        kind_field(d, s, n)
    } else {
        crate::ABSENT
    }
}
