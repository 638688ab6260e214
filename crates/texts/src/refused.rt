// Where the first test is that a file does not meet (specs/Places.antt). The first number is which record of the file it is, from 1;
// a slot is the record due there.
ghost use Rattle.std.specs.Prelude.{true, ◌≡◌, take, IfOk};
ghost use Rattle.grammar.specs.Slots.{form_number, slot_in};
ghost use Rattle.rules.specs.Answers.{refusal_number};
ghost use Rattle.rules.specs.Calls.{district_in};
ghost use Rattle.rules.specs.File.{in_range};
ghost use Rattle.texts.specs.Places.{refusal_at, number_place, record_place, form_read, place_in};
ghost use Rattle.texts.specs.Found.{place_of, refused_in};

use crate::{numbers, records};
use file::records::Placed;
use grammar::{Form, Slot};
use rules::records::RECORDS;
use rules::{District, Refusal};

#[derive(Clone, Copy)]
pub enum Place {
    EndsWithin(usize, Slot),
    // The kind that stands there, and the kind due.
    OtherKind(usize, usize, usize),
    // The length that stands there, and the length due.
    OtherLength(usize, Slot, usize, usize),
    // Which number of the record, from 1; what stands there; the least and the greatest that may.
    OutOfRange(usize, Slot, usize, i128, i128, i128),
    // How many bytes follow the end.
    BehindEnd(usize),
}

// The number of the test.
#[tactic(auto, unfolding(crate::specs::Places::refusal_at))]
pub fn refusal_at(place: Place) -> usize
    ensures { result ≡ refusal_at (place_of place) }
{
    let refusal = match place {
        Place::EndsWithin(..) => Refusal::CutShort,
        Place::OtherKind(..) => Refusal::OtherKind,
        Place::OtherLength(..) => Refusal::OtherLength,
        Place::OutOfRange(..) => Refusal::OutOfRange,
        Place::BehindEnd(_) => Refusal::BytesFollow,
    };
    usize::from(refusal)
}

// Which number of the record is the first that is out of its range, where these are the bytes of its numbers.
fn number_place(p: usize, d: &District, s: Slot, bytes: &[u8]) -> Place
    ensures { place_of result ≡ number_place s.places p d.now (slot_in s) 0 bytes.now }
{
    let mut rest = bytes;
    for i in 0..s.places {
        let f = grammar::field_at(d, s, i);
        let x = file::bytes::number(text::take(rest, f.width));
        if !grammar::is_inside(f, x) {
            return Place::OutOfRange(
                p,
                s,
                records::due_before(d, s, i) + 1,
                numbers::shown_in(f, x),
                numbers::shown_in(f, f.lo),
                numbers::shown_in(f, f.hi),
            );
        }
        rest = text::drop(rest, f.width);
    }
    Place::EndsWithin(p, s)
}

// Where the record that these bytes begin with is refused, which is the file's `p`-th, from 1. Of the district only the places before
// it are asked.
fn record_place(refusal: Refusal, p: usize, d: &District, placed: Placed, bytes: &[u8]) -> Place
    ensures { place_of result ≡ record_place (refusal_number refusal) p (take placed.place d.now) (slot_in placed.slot) bytes.now }
{
    let s = placed.slot;
    match refusal {
        Refusal::CutShort => Place::EndsWithin(p, s),
        Refusal::OtherKind => {
            let kind = file::bytes::number(text::take(text::drop(bytes, 2), 2));
            Place::OtherKind(p, kind, s.kind_number())
        }
        Refusal::OtherLength => {
            let size = file::bytes::number(text::take(bytes, 2));
            Place::OtherLength(p, s, size, file::reading::payload(d, s))
        }
        _ => number_place(p, d, s, text::drop(bytes, 4)),
    }
}

// The file's district, into one that is lent, and the file's form, or where it is refused. By a loop, as file's `read_as`; `p` is which
// record of the file comes next, which those that the district has not do not count for.
pub fn read(file: &[u8], d: &mut District) -> Result<Form, Place>
    ensures place { place_in file.now ≡ refused_in result }
    ensures form { IfOk result (λ form. form_number form ≡ form_read file.now) }
    ensures district { IfOk result (λ _. d.new ≡ district_in file.now) }
    ensures ranged { IfOk result (λ _. in_range d.new ≡ true) }
{
    let form = file::forms::form_in(file);
    let mut rest = file;
    let mut p = 1;
    for n in 0..RECORDS {
        let placed = file::records::nth(form, n);
        match placed.read(d, rest) {
            Ok(next) => rest = next,
            Err(refusal) => return Err(record_place(refusal, p, d, placed, rest)),
        }
        p += usize::from(grammar::is_present(d, placed.slot));
    }
    if !rest.is_empty() {
        return Err(Place::BehindEnd(rest.len()));
    }
    Ok(form)
}
