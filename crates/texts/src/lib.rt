// A district as text: how a text is read as a district, and a district printed as a text. See specs/, and docs/FILE.md, whose
// sections they name.
#![tactic(auto)]

ghost use Rattle.std.specs.Prelude.{◌≡◌};
ghost use Rattle.texts.specs.Reading.{read_text};
ghost use Rattle.texts.specs.Found.{formed_in};
ghost use Rattle.texts.specs.Programs.{packed, unpacked};
ghost use Rattle.base.specs.Text.{Put};
ghost use Rattle.texts.specs.Promises.{longest_printed, Promises};

mod faults;
mod numbers;
mod printing;
mod reading;
mod records;
mod refused;
mod remaining;
mod words;

pub use faults::{Complaint, Fault};
use grammar::Form;
pub use refused::Place;
use remaining::Remaining;
use rules::District;
use rules::places::DISTRICT_PLACES;
use rules::records::LONGEST_FILE;

// A text may have so many bytes, and one more tells that it is too long.
pub const LONGEST_TEXT: usize = 65_536;

pub const MOST_TEXT_READ: usize = LONGEST_TEXT + 1;

// The longest text of a district has so many.
pub const LONGEST_PRINTED: usize = 12_234;

// The text's district, into one that is lent, and its form. A text that is no district's leaves there what it came to.
pub fn read_text<'a>(text: &'a [u8], d: &mut District) -> Result<Form, Complaint<'a>>
    ensures { read_text text.now ≡ formed_in d.new result }
{
    if LONGEST_TEXT < text.len() {
        return Err(Complaint::TooLong);
    }
    let lines = Remaining {
        bytes: text,
        number: 1,
    };
    let form = reading::form_in(lines);
    reading::read_records(form, d, lines)?;
    Ok(form)
}

// What is printed for a text, its file or the complaint, to the front of `out`.
pub fn pack(text: &[u8], out: &mut [u8; LONGEST_FILE]) -> usize
    ensures { Put (packed text.now) out.old out.new result }
{
    let mut d = [0; DISTRICT_PLACES];
    match read_text(text, &mut d) {
        Ok(form) => file::export_as(form, &d, out).unwrap_or(0),
        Err(complaint) => printing::put_complaint(out, complaint),
    }
}

// What is printed for a file, its text or where it is refused, to the front of `out`.
pub fn unpack(file: &[u8], out: &mut [u8; LONGEST_PRINTED]) -> usize
    ensures { Put (unpacked file.now) out.old out.new result }
{
    let mut d = [0; DISTRICT_PLACES];
    match refused::read(file, &mut d) {
        Ok(form) => printing::put_text(out, form, &d),
        Err(place) => printing::put_refused_at(out, place),
    }
}

// How many bytes the longest text has that is printed. The contract says of pack and unpack what holds of any bytes and of each
// district that a file may hold.
pub fn most_printed() -> usize
    ensures { (result ≡ longest_printed) × Promises }
{
    LONGEST_PRINTED
}
