// The district's file: loading, for any bytes, and export, into any buffer.
#![tactic(auto)]

pub mod bytes;
pub mod forms;
pub mod numbered;
pub mod reading;
pub mod records;
mod writing;

ghost use Rattle.std.specs.Prelude.{true, ◌≡◌, IfOk};
ghost use Rattle.rules.specs.Answers.{answer_in, refusal_in};
ghost use Rattle.rules.specs.Calls.{load_refusal, district_in, exported, export_refusal};
ghost use Rattle.rules.specs.File.{encode, longest_file, in_range};
ghost use Rattle.grammar.specs.Slots.{form_number};
ghost use Rattle.file.specs.Forms.{load_refusal_as, district_as, exported_as};
ghost use Rattle.file.specs.Trips.{Trips};

use grammar::Form;
use rules::places::DISTRICT_PLACES;
use rules::records::{LONGEST_FILE, RECORDS};
use rules::{Answer, District, Refusal};

// A file of the form given, into a district that is lent: each record writes all of its places, so a file that is read to its
// end leaves nothing of what stood there, and one that is refused leaves what it came to. A file of the other form is refused at
// its first kind. A loop: a `try_fold` over what is left of the file would write to the district in its closure, and of what a
// chain's closure changes a proof knows nothing.
fn read_as(form: Form, file: &[u8], d: &mut District) -> Result<(), Refusal>
    ensures refusal { refusal_in result ≡ load_refusal_as (form_number form) file.now }
    ensures district { IfOk result (λ _. d.new ≡ district_as (form_number form) file.now) }
{
    let mut rest = file;
    for n in 0..RECORDS {
        rest = records::nth(form, n).read(d, rest)?;
    }
    if !rest.is_empty() {
        return Err(Refusal::BytesFollow);
    }
    Ok(())
}

// A file of either form, into a district that is lent.
pub fn read(file: &[u8], d: &mut District) -> Result<(), Refusal>
    ensures refusal { refusal_in result ≡ load_refusal file.now }
    ensures district { IfOk result (λ _. d.new ≡ district_in file.now) }
    ensures ranged { IfOk result (λ _. in_range d.new ≡ true) }
{
    read_as(forms::form_in(file), file, d)
}

// The district of a file of the form given.
pub fn load_as(form: Form, file: &[u8]) -> Result<District, Refusal>
    ensures refusal { refusal_in result ≡ load_refusal_as (form_number form) file.now }
    ensures district { IfOk result (λ d. d ≡ district_as (form_number form) file.now) }
{
    let mut d = [0; DISTRICT_PLACES];
    read_as(form, file, &mut d)?;
    Ok(d)
}

// The district of a file of either form.
pub fn load(file: &[u8]) -> Result<District, Refusal>
    ensures refusal { refusal_in result ≡ load_refusal file.now }
    ensures district { IfOk result (λ d. d ≡ district_in file.now) }
    ensures ranged { IfOk result (λ d. in_range d ≡ true) }
{
    load_as(forms::form_in(file), file)
}

// The file of the district, in the form given, to the front of the buffer, where the buffer has room for it.
pub fn export_as(form: Form, d: &District, buffer: &mut [u8]) -> Answer
    ensures { record { answer = answer_in result; buffer = buffer.new } ≡ exported_as (form_number form) d.now buffer.old }
{
    let length = writing::file_length(form, d);
    if buffer.len() < length {
        return Err(Refusal::BufferTooShort);
    }
    writing::write_file(buffer, form, d);
    Ok(length)
}

// With leaders only where one is set.
#[tactic(auto, unfolding(rules::specs::Calls::export_refusal, rules::specs::File::encode))]
pub fn export(d: &District, buffer: &mut [u8]) -> Answer
    ensures { record { answer = answer_in result; buffer = buffer.new } ≡ exported (export_refusal d.now buffer.old) (encode d.now) buffer.old }
{
    export_as(forms::form_of(d), d, buffer)
}

// How many bytes the longest file has. The contract says of load and export what holds of every file and every district.
pub fn longest_file() -> usize
    ensures { (result ≡ longest_file) × Trips result }
{
    LONGEST_FILE
}
