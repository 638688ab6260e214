// The file of a district in a form of any number, as the rules have it: `Form` is for the forms that there are. In another form
// more than the first kind may differ: a record whose kind is the form's number has the counts, and the first record of form 4,
// 5 or 6 may be absent. So each record is written by its numbers, and otherwise as in `writing`; it is no `Placed`, since what
// the first record hangs on does not always stand before it.
ghost use Rattle.std.specs.Prelude.{◌++◌, ◌≡◌, ◌+◌, ◌≤◌, length, drop};
ghost use Rattle.base.specs.Text.{Put};
ghost use Rattle.rules.specs.Answers.{answer_in};
ghost use Rattle.rules.specs.District.{district_places};
ghost use Rattle.rules.specs.File.{size, header_bytes, number_bytes, record_bytes, encode_as};
ghost use Rattle.rules.specs.Format.{slot_of};
ghost use Rattle.grammar.specs.Places.{start_of};
ghost use Rattle.grammar.specs.Slots.{numbered_in};
ghost use Rattle.file.specs.Forms.{exported_as};

use crate::bytes;
use grammar::Form;
use grammar::numbered::{self, Slot};
use rules::records::RECORDS;
use rules::{Answer, District, Refusal};

// How many bytes the payload of the record has.
fn payload(d: &District, slot: Slot) -> usize
    requires { slot.places ≤ district_places }
    ensures { result ≡ size d.now (numbered_in slot) }
{
    (0..slot.places)
        .map(|i| numbered::field_at(d, slot, i).width)
        .sum()
}

// The length and the kind of the record, where the district has it.
fn write_header(out: &mut [u8], d: &District, slot: Slot) -> usize
    requires places { slot.places ≤ district_places }
    requires room { length (header_bytes d.now (numbered_in slot)) ≤ length out.old }
    ensures { Put (header_bytes d.now (numbered_in slot)) out.old out.new result }
{
    if !numbered::is_present(d, slot) {
        return 0;
    }
    bytes::put(out, 2, payload(d, slot));
    bytes::put(&mut out[2..], 2, slot.kind);
    4
}

// The numbers of the record, which stand in the district from `place` on.
fn write_numbers(out: &mut [u8], d: &District, slot: Slot, place: usize) -> usize
    requires places { place + slot.places ≤ district_places }
    requires room { length (number_bytes slot.places d.now (numbered_in slot) 0 place) ≤ length out.old }
    ensures { Put (number_bytes slot.places d.now (numbered_in slot) 0 place) out.old out.new result }
{
    let mut at = 0;
    for i in 0..slot.places {
        let f = numbered::field_at(d, slot, i);
        bytes::put(&mut out[at..], f.width, d[place + i]);
        at += f.width;
    }
    at
}

fn write(out: &mut [u8], d: &District, slot: Slot, place: usize) -> usize
    requires places { place + slot.places ≤ district_places }
    requires room { length (record_bytes d.now (numbered_in slot) place) ≤ length out.old }
    ensures { Put (record_bytes d.now (numbered_in slot) place) out.old out.new result }
{
    let header = write_header(out, d, slot);
    header + write_numbers(&mut out[header..], d, slot, place)
}

// How many bytes the `n`-th record has, from 0.
fn record_length(form: usize, d: &District, n: usize) -> usize
    ensures { result ≡ length (record_bytes d.now (slot_of form n) (start_of n)) }
{
    let slot = numbered::slot_at(form, n);
    if numbered::is_present(d, slot) {
        4 + payload(d, slot)
    } else {
        0
    }
}

fn file_length(form: usize, d: &District) -> usize
    ensures { result ≡ length (encode_as form d.now) }
{
    (0..RECORDS).map(|n| record_length(form, d, n)).sum()
}

fn write_file(out: &mut [u8], form: usize, d: &District)
    requires { length (encode_as form d.now) ≤ length out.old }
    ensures { out.new ≡ encode_as form d.now ++ drop (length (encode_as form d.now)) out.old }
{
    let mut at = 0;
    for n in 0..RECORDS {
        let slot = numbered::slot_at(form, n);
        at += write(&mut out[at..], d, slot, grammar::start_of(n));
    }
}

// The file of the district, in the form of that number, to the front of the buffer, where the buffer has room for it.
pub fn export_as(form: usize, d: &District, buffer: &mut [u8]) -> Answer
    ensures { record { answer = answer_in result; buffer = buffer.new } ≡ exported_as form d.now buffer.old }
{
    if form == Form::Plain as usize {
        return crate::export_as(Form::Plain, d, buffer);
    }
    if form == Form::Leaders as usize {
        return crate::export_as(Form::Leaders, d, buffer);
    }
    let length = file_length(form, d);
    if buffer.len() < length {
        return Err(Refusal::BufferTooShort);
    }
    write_file(buffer, form, d);
    Ok(length)
}
