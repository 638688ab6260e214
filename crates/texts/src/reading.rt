// Reading a text's records into a district (specs/Reading.antt).
ghost use Rattle.std.specs.Prelude.{◌≡◌, ◌≤◌, ◌+◌, [], take, drop, replicate};
ghost use Rattle.grammar.specs.Places.{Ready};
ghost use Rattle.grammar.specs.Slots.{form_number, slot_in};
ghost use Rattle.rules.specs.District.{district_places};
ghost use Rattle.rules.specs.Format.{present, file_records};
ghost use Rattle.texts.specs.Words.{Words, words_in};
ghost use Rattle.texts.specs.Numbers.{value_of};
ghost use Rattle.texts.specs.Records.{is_due};
ghost use Rattle.texts.specs.Reading.{read_value, read_number, read_numbers, read_line, read_record, read_records, form_in};
ghost use Rattle.texts.specs.Found.{reading_in, reading_of, Finds, lines_left, behind, FindsRecord, records_in};

use crate::faults::{Complaint, Fault};
use crate::remaining::Remaining;
use crate::{numbers, records, words};
use grammar::{Form, Slot};
use rules::records::RECORDS;
use rules::{District, Field};

// The district's number for a word, where one of the field is due.
fn read_value<'a>(f: Field, word: &'a [u8]) -> Result<usize, Fault<'a>>
    ensures { (ws : Words) → read_value f word.now (value_of word.now) ws ≡ reading_in result ws }
{
    let Some(v) = numbers::value(word) else {
        return Err(Fault::NoNumber(word));
    };
    if !numbers::is_in(f, v) {
        return Err(Fault::OutOfRange(word, numbers::shown_in(f, f.lo), numbers::shown_in(f, f.hi)));
    }
    Ok(numbers::held_as(v))
}

// The `n`-th number of the record, by the word that stands first, and what follows it in the line. A number that the district
// has not is 0, and takes no word.
fn read_number<'a>(
    d: &District,
    s: Slot,
    n: usize,
    line: &'a [u8],
) -> Result<(usize, &'a [u8]), Fault<'a>>
    ensures { read_number (is_due d.now (slot_in s) n) d.now (slot_in s) n (words_in line.now) ≡ reading_of result }
{
    if !records::is_due(d, s, n) {
        return Ok((0, line));
    }
    let Some((word, rest)) = words::next(line) else {
        let stand = records::due_before(d, s, n);
        return Err(Fault::NumberMissing(stand, records::due_before(d, s, s.places)));
    };
    let x = read_value(grammar::field_at(d, s, n), word)?;
    Ok((x, rest))
}

// The numbers of the record, to their places of the district, by the words of the line behind its word. By a loop: a
// chain's closure would write to the district, and of what it changes a proof knows nothing.
fn read_numbers<'a>(
    d: &mut District,
    s: Slot,
    place: usize,
    line: &'a [u8],
) -> Result<(), Fault<'a>>
    requires { Ready (slot_in s) place }
    ensures { Finds (read_numbers s.places (take place d.old) (slot_in s) 0 [] (words_in line.now)) place s.places d.old d.new result }
{
    let mut rest = line;
    for i in 0..s.places {
        let (x, next) = read_number(d, s, i, rest)?;
        d[place + i] = x;
        rest = next;
    }
    match words::next(rest) {
        None => Ok(()),
        Some(_) => Err(Fault::NumberTooMany(records::due_before(d, s, s.places))),
    }
}

// The line of the record: its word, then its numbers.
fn read_line<'a>(d: &mut District, s: Slot, place: usize, line: &'a [u8]) -> Result<(), Fault<'a>>
    requires { Ready (slot_in s) place }
    ensures { Finds (read_line (take place d.old) (slot_in s) (words_in line.now)) place s.places d.old d.new result }
{
    let kind = s.kind_number();
    let Some((word, rest)) = words::next(line) else {
        return Err(Fault::OtherWord(b"", kind));
    };
    if !records::is_word(word, kind) {
        return Err(Fault::OtherWord(word, kind));
    }
    read_numbers(d, s, place, rest)
}

// Zeros for the numbers of a record that the district has not.
fn clear(d: &mut District, place: usize, places: usize)
    requires { place + places ≤ district_places }
    ensures { (take places (drop place d.new) ≡ replicate places 0) × (take place d.new ≡ take place d.old) }
{
    d[place..place + places].fill(0);
}

// The record, by the next line that has words, and the lines behind it. A record that the district has not takes no line.
fn read_record<'a>(
    d: &mut District,
    s: Slot,
    place: usize,
    lines: Remaining<'a>,
) -> Result<Remaining<'a>, Complaint<'a>>
    requires { Ready (slot_in s) place }
    ensures { FindsRecord (read_record (present (take place d.old) (slot_in s)) (behind lines.entry) (take place d.old) (slot_in s) (lines_left lines.entry)) (behind lines.entry) place s.places d.old d.new result }
{
    if !grammar::is_present(d, s) {
        clear(d, place, s.places);
        return Ok(lines);
    }
    let (number, line, rest) = match lines.next() {
        Ok(found) => found,
        Err(last) => {
            let fault = Fault::EndMissing(s.kind_number());
            return Err(Complaint::InLine(last, fault));
        }
    };
    match read_line(d, s, place, line) {
        Ok(()) => Ok(rest),
        Err(fault) => Err(Complaint::InLine(number, fault)),
    }
}

// All records of the form, to the whole district, by the lines; then none that has words may follow. By a loop, as in
// `read_numbers`. Each record starts where the one before it ends.
pub fn read_records<'a>(
    form: Form,
    d: &mut District,
    lines: Remaining<'a>,
) -> Result<(), Complaint<'a>>
    ensures { read_records (form_number form) (behind lines.entry) file_records 0 [] (lines_left lines.entry) ≡ records_in d.new result }
{
    let mut rest = lines;
    let mut place = 0;
    for n in 0..RECORDS {
        let s = grammar::slot_at(form, n);
        rest = read_record(d, s, place, rest)?;
        place += s.places;
    }
    match rest.next() {
        Ok((number, _, _)) => Err(Complaint::InLine(number, Fault::BehindEnd)),
        Err(_) => Ok(()),
    }
}

// The form that the first word says; every other text is read as one without leaders.
pub fn form_in(lines: Remaining<'_>) -> Form
    ensures { form_number result ≡ form_in (lines_left lines.entry) }
{
    let Ok((_, line, _)) = lines.next() else {
        return Form::Plain;
    };
    let Some((word, _)) = words::next(line) else {
        return Form::Plain;
    };
    if records::is_word(word, Form::Leaders as usize) {
        Form::Leaders
    } else {
        Form::Plain
    }
}
