// Writing a district's records. Each writer takes the tail of the buffer that follows what is written, and says how many bytes
// it wrote, which the two loops add up. A writer that holds the buffer with the count was tried. It spares them those lines, but
// takes a type, its own `put`, and a clause of each function that the buffer is still the same one: nine lines more here, and a
// hundred more of proof.
ghost use Rattle.std.specs.Prelude.{◌++◌, ◌≡◌, ◌≤◌, length, drop};
ghost use Rattle.base.specs.Text.{Put};
ghost use Rattle.rules.specs.File.{header_bytes, number_bytes, record_bytes, encode_as};
ghost use Rattle.grammar.specs.Slots.{form_number, slot_in};

use crate::records::Placed;
use crate::{bytes, reading, records};
use grammar::Form;
use rules::District;
use rules::records::RECORDS;

impl Placed {
    // The length and the kind of the record, where the district has it.
    fn write_header(self, out: &mut [u8], d: &District) -> usize
        requires { length (header_bytes d.now (slot_in self.slot)) ≤ length out.old }
        ensures { Put (header_bytes d.now (slot_in self.slot)) out.old out.new result }
    {
        let slot = self.slot;
        if !grammar::is_present(d, slot) {
            return 0;
        }
        bytes::put(out, 2, reading::payload(d, slot));
        bytes::put(&mut out[2..], 2, slot.kind_number());
        4
    }

    // The numbers of the record. By a loop, as write_file.
    fn write_numbers(self, out: &mut [u8], d: &District) -> usize
        requires { length (number_bytes self.slot.places d.now (slot_in self.slot) 0 self.place) ≤ length out.old }
        ensures { Put (number_bytes self.slot.places d.now (slot_in self.slot) 0 self.place) out.old out.new result }
    {
        let mut at = 0;
        for (i, value) in self.numbers(d).iter().enumerate() {
            let f = grammar::field_at(d, self.slot, i);
            bytes::put(&mut out[at..], f.width, *value);
            at += f.width;
        }
        at
    }

    fn write(self, out: &mut [u8], d: &District) -> usize
        requires { length (record_bytes d.now (slot_in self.slot) self.place) ≤ length out.old }
        ensures { Put (record_bytes d.now (slot_in self.slot) self.place) out.old out.new result }
    {
        let header = self.write_header(out, d);
        header + self.write_numbers(&mut out[header..], d)
    }

    // How many bytes the record has.
    fn length(self, d: &District) -> usize
        ensures { result ≡ length (record_bytes d.now (slot_in self.slot) self.place) }
    {
        if grammar::is_present(d, self.slot) {
            4 + reading::payload(d, self.slot)
        } else {
            0
        }
    }
}

pub fn file_length(form: Form, d: &District) -> usize
    ensures { result ≡ length (encode_as (form_number form) d.now) }
{
    (0..RECORDS).map(|n| records::nth(form, n).length(d)).sum()
}

// Each record goes into what is left of the buffer. A loop: a fold's closure would write to the buffer, and of what a chain's
// closure changes a proof knows nothing.
pub fn write_file(out: &mut [u8], form: Form, d: &District)
    requires { length (encode_as (form_number form) d.now) ≤ length out.old }
    ensures { out.new ≡ encode_as (form_number form) d.now ++ drop (length (encode_as (form_number form) d.now)) out.old }
{
    let mut at = 0;
    for n in 0..RECORDS {
        at += records::nth(form, n).write(&mut out[at..], d);
    }
}
