// Reading a file's records into a district. Each reader gives the bytes that follow what it read, and leaves the places before
// the record as they are, also where it refuses: what stands there says where that is.
ghost use Rattle.std.specs.Prelude.{[], ◌≡◌, ◌≤◌, length, take, drop, MatchResult};
ghost use Rattle.grammar.specs.Slots.{slot_in};
ghost use Rattle.rules.specs.Answers.{refusal_number};
ghost use Rattle.rules.specs.File.{refused, found, size, read_numbers, read_record};
ghost use Rattle.rules.specs.Format.{most_places};

use crate::bytes;
use crate::records::Placed;
use grammar::Slot;
use rules::{District, Refusal};

// How many bytes the payload of the record has: of the slot alone, as the rules' `size`, whatever its place.
pub fn payload(d: &District, slot: Slot) -> usize
    requires { slot.places ≤ most_places }
    ensures { result ≡ size d.now (slot_in slot) }
{
    (0..slot.places)
        .map(|i| grammar::field_at(d, slot, i).width)
        .sum()
}

impl Placed {
    // The numbers of the record, to their places of the district.
    fn read_numbers<'a>(self, d: &mut District, file: &'a [u8]) -> Result<&'a [u8], Refusal>
        requires { size (take self.place d.old) (slot_in self.slot) ≤ length file.now }
        ensures before { take self.place d.new ≡ take self.place d.old }
        ensures numbers { let read = read_numbers self.slot.places (take self.place d.old) (slot_in self.slot) 0 [] file.now in MatchResult result (λ rest. read ≡ found (take self.slot.places (drop self.place d.new)) rest.now) (λ refusal. read ≡ refused (refusal_number refusal)) }
    {
        let mut rest = file;
        // A loop, as in read_as: the district is written, and read for each next number.
        for i in 0..self.slot.places {
            let f = grammar::field_at(d, self.slot, i);
            let (number, next) = rest.split_at(f.width);
            let x = bytes::number(number);
            if !grammar::is_inside(f, x) {
                return Err(Refusal::OutOfRange);
            }
            d[self.place + i] = x;
            rest = next;
        }
        Ok(rest)
    }

    // The record that stands first, where the district has it. Else its numbers are zeros, and it has no bytes.
    pub fn read<'a>(self, d: &mut District, file: &'a [u8]) -> Result<&'a [u8], Refusal>
        ensures before { take self.place d.new ≡ take self.place d.old }
        ensures numbers { let read = read_record (take self.place d.old) (slot_in self.slot) file.now in MatchResult result (λ rest. read ≡ found (take self.slot.places (drop self.place d.new)) rest.now) (λ refusal. read ≡ refused (refusal_number refusal)) }
    {
        if !grammar::is_present(d, self.slot) {
            d[self.place..self.place + self.slot.places].fill(0);
            return Ok(file);
        }
        let Some((header, body)) = file.split_at_checked(4) else {
            return Err(Refusal::CutShort);
        };
        let due = self.slot.kind_number();
        let size = payload(d, self.slot);
        let length = bytes::number(&header[..2]);
        let kind = bytes::number(&header[2..]);
        if kind != due {
            return Err(Refusal::OtherKind);
        }
        if length != size {
            return Err(Refusal::OtherLength);
        }
        if body.len() < size {
            return Err(Refusal::CutShort);
        }
        self.read_numbers(d, body)
    }
}
