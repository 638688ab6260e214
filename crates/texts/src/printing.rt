// What is told of a text and of a file, and a district's text, written to the front of a lent buffer, as listing's writers do.
ghost use Rattle.std.specs.Prelude.{◌≡◌, ◌+◌, ◌++◌, ◌≤◌, ◌<◌, length, map};
ghost use Rattle.base.specs.Text.{text, digits_of, Put};
ghost use Rattle.listing.specs.Listing.{refusal, longest_refusal};
ghost use Rattle.texts.specs.Numbers.{written};
ghost use Rattle.texts.specs.Complaints.{plain, fault_text, complaint_text, TooLong, InLine, OtherWord, NumberMissing, NoNumber, OutOfRange, NumberTooMany, EndMissing};
ghost use Rattle.texts.specs.Places.{refusal_at, place_text, EndsWithin, OtherKind, OtherLength, OutOfRange as OutsideRange, BehindEnd};
ghost use Rattle.texts.specs.Pieces.{sign_of, piece_text, pieces_text, dots, due_text, longest_place};
ghost use Rattle.grammar.specs.Slots.{form_number, slot_in};
ghost use Rattle.rules.specs.District.{district_places};
ghost use Rattle.rules.specs.Format.{present};
ghost use Rattle.texts.specs.Records.{is_numbered, name_of};
ghost use Rattle.texts.specs.Printing.{numbers_text, comment_of, record_text, text_of};
ghost use Rattle.texts.specs.Found.{fault_in, complaint_in, place_of};

use crate::faults::{Complaint, Fault};
use crate::refused::Place;
use crate::{numbers, records, refused};
use grammar::{Form, Kind, Slot};
use rules::records::RECORDS;
use rules::{District, Field};

// The last `k` digits of the value, as the definition takes them: so it is said of every value of 128 bits, where listing's
// `put_number` has 64.
fn put_digits(out: &mut [u8], k: usize, value: u128) -> usize
    requires { length (digits_of k value) ≤ length out.old }
    ensures { Put (digits_of k value) out.old out.new result }
{
    if k == 0 {
        return 0;
    }
    if value < 10 {
        out[0] = b'0' + value as u8;
        return 1;
    }
    let at = put_digits(out, k - 1, value / 10);
    out[at] = b'0' + (value % 10) as u8;
    at + 1
}

// What stands in front of a number's digits.
fn sign_of(v: i128) -> &'static [u8]
    ensures { result.now ≡ sign_of v }
{
    if v < 0 { b"-" } else { b"" }
}

// A whole number with its sign.
fn put_written(out: &mut [u8], v: i128) -> usize
    requires { length (written v) ≤ length out.old }
    ensures { Put (written v) out.old out.new result }
{
    let at = listing::put(out, sign_of(v));
    at + put_digits(&mut out[at..], 20, v.unsigned_abs())
}

// The same behind one space.
#[tactic(auto, unfolding(base::specs::Text::text))]
fn put_spaced(out: &mut [u8], v: i128) -> usize
    requires { length (text " " ++ written v) ≤ length out.old }
    ensures { Put (text " " ++ written v) out.old out.new result }
{
    let at = listing::put(out, b" ");
    at + put_written(&mut out[at..], v)
}

fn is_numbered(s: Slot) -> bool
    ensures { result ≡ is_numbered (slot_in s) }
{
    matches!(s.kind, Kind::Strategy | Kind::Pavement | Kind::Segment)
}

// The record's name.
fn put_name(out: &mut [u8], s: Slot) -> usize
    requires { length (name_of (slot_in s)) ≤ length out.old }
    ensures { Put (name_of (slot_in s)) out.old out.new result }
{
    let word = listing::put(out, records::word_of(s.kind_number()));
    if !is_numbered(s) {
        return word;
    }
    let at = word + listing::put(&mut out[word..], b" ");
    at + put_digits(&mut out[at..], 20, s.nth as u128 + 1)
}

// What a line is put together of, one piece after another.
#[derive(Clone, Copy)]
pub enum Piece<'a> {
    Bytes(&'a [u8]),
    // A word's bytes, '?' for each that is no plain letter.
    Plain(&'a [u8]),
    Number(usize),
    Written(i128),
    Name(Slot),
}

fn plain(byte: u8) -> u8
    ensures { result ≡ plain byte }
{
    if (32..=126).contains(&byte) {
        byte
    } else {
        b'?'
    }
}

fn put_plain(out: &mut [u8], bytes: &[u8]) -> usize
    requires { length (map plain bytes.now) ≤ length out.old }
    ensures { Put (map plain bytes.now) out.old out.new result }
{
    for (i, byte) in bytes.iter().enumerate() {
        out[i] = plain(*byte);
    }
    bytes.len()
}

#[tactic(auto, unfolding(base::specs::Text::decimal))]
pub fn put_piece(out: &mut [u8], piece: Piece) -> usize
    requires { length (piece_text piece) ≤ length out.old }
    ensures { Put (piece_text piece.entry) out.old out.new result }
{
    match piece {
        Piece::Bytes(bytes) => listing::put(out, bytes),
        Piece::Plain(bytes) => put_plain(out, bytes),
        Piece::Number(n) => listing::put_number(out, n),
        Piece::Written(v) => put_written(out, v),
        Piece::Name(s) => put_name(out, s),
    }
}

pub fn put_pieces(out: &mut [u8], pieces: &[Piece]) -> usize
    requires { length (pieces_text pieces.now) ≤ length out.old }
    ensures { Put (pieces_text pieces.now) out.old out.new result }
{
    let mut at = 0;
    for piece in pieces {
        at += put_piece(&mut out[at..], *piece);
    }
    at
}

// What stands behind the quoted bytes of a word.
#[tactic(auto, unfolding(base::specs::Text::text))]
fn dots(word: &[u8]) -> &'static [u8]
    ensures { result.now ≡ dots word.now }
{
    if word.len() <= 20 { b"" } else { b".." }
}

fn put_out_of_range(out: &mut [u8], word: &[u8], lo: i128, hi: i128) -> usize
    requires { length (fault_text (OutOfRange word.now lo hi)) ≤ length out.old }
    ensures { Put (fault_text (OutOfRange word.now lo hi)) out.old out.new result }
{
    put_pieces(
        out,
        &[
            Piece::Bytes(word),
            Piece::Bytes(b" is not "),
            Piece::Written(lo),
            Piece::Bytes(b" to "),
            Piece::Written(hi),
        ],
    )
}

fn put_other_word(out: &mut [u8], word: &[u8], kind: usize) -> usize
    requires { length (fault_text (OtherWord word.now kind)) ≤ length out.old }
    ensures { Put (fault_text (OtherWord word.now kind)) out.old out.new result }
{
    put_pieces(
        out,
        &[
            Piece::Bytes(b"'"),
            Piece::Plain(text::take(word, 20)),
            Piece::Bytes(dots(word)),
            Piece::Bytes(b"' is not the word due ('"),
            Piece::Bytes(records::word_of(kind)),
            Piece::Bytes(b"')"),
        ],
    )
}

#[tactic(auto, unfolding(crate::specs::Complaints::fault_text, crate::specs::Pieces::pieces_text, base::specs::Text::text))]
fn put_number_missing(out: &mut [u8], stand: usize, due: usize) -> usize
    requires { length (fault_text (NumberMissing stand due)) ≤ length out.old }
    ensures { Put (fault_text (NumberMissing stand due)) out.old out.new result }
{
    put_pieces(
        out,
        &[
            Piece::Bytes(b"a number is missing ("),
            Piece::Number(stand),
            Piece::Bytes(b" of "),
            Piece::Number(due),
            Piece::Bytes(b")"),
        ],
    )
}

fn put_no_number(out: &mut [u8], word: &[u8]) -> usize
    requires { length (fault_text (NoNumber word.now)) ≤ length out.old }
    ensures { Put (fault_text (NoNumber word.now)) out.old out.new result }
{
    put_pieces(
        out,
        &[
            Piece::Bytes(b"'"),
            Piece::Plain(text::take(word, 20)),
            Piece::Bytes(dots(word)),
            Piece::Bytes(b"' is not a number"),
        ],
    )
}

#[tactic(auto, unfolding(crate::specs::Complaints::fault_text, crate::specs::Pieces::pieces_text, base::specs::Text::text))]
fn put_number_too_many(out: &mut [u8], due: usize) -> usize
    requires { length (fault_text (NumberTooMany due)) ≤ length out.old }
    ensures { Put (fault_text (NumberTooMany due)) out.old out.new result }
{
    put_pieces(
        out,
        &[
            Piece::Bytes(b"a number too many ("),
            Piece::Number(due),
            Piece::Bytes(b" are due)"),
        ],
    )
}

fn put_end_missing(out: &mut [u8], kind: usize) -> usize
    requires { length (fault_text (EndMissing kind)) ≤ length out.old }
    ensures { Put (fault_text (EndMissing kind)) out.old out.new result }
{
    put_pieces(
        out,
        &[
            Piece::Bytes(b"the end is missing ('"),
            Piece::Bytes(records::word_of(kind)),
            Piece::Bytes(b"' is due)"),
        ],
    )
}

// What is wrong with a line.
fn put_fault(out: &mut [u8], fault: Fault) -> usize
    requires { length (fault_text (fault_in fault)) ≤ length out.old }
    ensures { Put (fault_text (fault_in fault.entry)) out.old out.new result }
{
    match fault {
        Fault::OtherWord(word, kind) => put_other_word(out, word, kind),
        Fault::NumberMissing(stand, due) => put_number_missing(out, stand, due),
        Fault::NoNumber(word) => put_no_number(out, word),
        Fault::OutOfRange(word, lo, hi) => put_out_of_range(out, word, lo, hi),
        Fault::NumberTooMany(due) => put_number_too_many(out, due),
        Fault::BehindEnd => listing::put(out, b"something follows the end"),
        Fault::EndMissing(kind) => put_end_missing(out, kind),
    }
}

// The same as a line, with the line's number.
fn put_in_line(out: &mut [u8], n: usize, fault: Fault) -> usize
    requires { length (complaint_text (InLine n (fault_in fault))) ≤ length out.old }
    ensures { Put (complaint_text (InLine n (fault_in fault.entry))) out.old out.new result }
{
    let mut at = put_pieces(
        out,
        &[
            Piece::Bytes(b"line "),
            Piece::Number(n),
            Piece::Bytes(b": "),
        ],
    );
    at += put_fault(&mut out[at..], fault);
    at + listing::put(&mut out[at..], b"\n")
}

#[tactic(auto, unfolding(crate::specs::Complaints::complaint_text, base::specs::Text::text, base::specs::Text::decimal, base::specs::Text::digits_of))]
fn put_too_long(out: &mut [u8]) -> usize
    requires { length (complaint_text TooLong) ≤ length out.old }
    ensures { Put (complaint_text TooLong) out.old out.new result }
{
    listing::put(out, b"the text is longer than 65536 bytes\n")
}

// What is wrong with a text, as a line.
pub fn put_complaint(out: &mut [u8], complaint: Complaint) -> usize
    requires { length (complaint_text (complaint_in complaint)) ≤ length out.old }
    ensures { Put (complaint_text (complaint_in complaint.entry)) out.old out.new result }
{
    match complaint {
        Complaint::TooLong => put_too_long(out),
        Complaint::InLine(n, fault) => put_in_line(out, n, fault),
    }
}

// ---- a district's text

// The `n`-th number of the record, where the district has it.
fn put_due(out: &mut [u8], d: &District, s: Slot, n: usize, place: usize) -> usize
    requires room { length (due_text d.now (slot_in s) n place) ≤ length out.old }
    requires within { place < district_places }
    ensures { Put (due_text d.now (slot_in s) n place) out.old out.new result }
{
    if records::is_due(d, s, n) {
        put_spaced(out, numbers::shown_in(grammar::field_at(d, s, n), d[place]))
    } else {
        0
    }
}

// The numbers of the record, by a loop, as listing's lines.
fn put_numbers(out: &mut [u8], d: &District, s: Slot, place: usize) -> usize
    requires room { length (numbers_text s.places d.now (slot_in s) 0 place) ≤ length out.old }
    requires within { place + s.places ≤ district_places }
    ensures { Put (numbers_text s.places d.now (slot_in s) 0 place) out.old out.new result }
{
    let mut at = 0;
    for i in 0..s.places {
        at += put_due(&mut out[at..], d, s, i, place + i);
    }
    at
}

// What ends the record's line: the comment, and a line feed.
#[tactic(auto, unfolding(crate::specs::Printing::comment_of, crate::specs::Pieces::pieces_text, base::specs::Text::text))]
fn put_ending(out: &mut [u8], s: Slot) -> usize
    requires { length (comment_of (slot_in s) ++ text "\n") ≤ length out.old }
    ensures { Put (comment_of (slot_in s) ++ text "\n") out.old out.new result }
{
    match s.kind {
        Kind::Counts => listing::put(
            out,
            b" # segments, strategies, years, distress types, pavement types, resources\n",
        ),
        Kind::Strategy | Kind::Pavement | Kind::Segment => put_pieces(
            out,
            &[Piece::Bytes(b" # "), Piece::Name(s), Piece::Bytes(b"\n")],
        ),
        Kind::Limits | Kind::Greatest | Kind::End => listing::put(out, b"\n"),
    }
}

// The line of the record, where the district has it.
fn put_record(out: &mut [u8], d: &District, s: Slot, place: usize) -> usize
    requires room { length (record_text (present d.now (slot_in s)) d.now (slot_in s) place) ≤ length out.old }
    requires within { place + s.places ≤ district_places }
    ensures { Put (record_text (present d.now (slot_in s)) d.now (slot_in s) place) out.old out.new result }
{
    if !grammar::is_present(d, s) {
        return 0;
    }
    let mut at = listing::put(out, records::word_of(s.kind_number()));
    at += put_numbers(&mut out[at..], d, s, place);
    at + put_ending(&mut out[at..], s)
}

// The text of the district in the form.
pub fn put_text(out: &mut [u8], form: Form, d: &District) -> usize
    requires { length (text_of (form_number form) d.now) ≤ length out.old }
    ensures { Put (text_of (form_number form) d.now) out.old out.new result }
{
    let mut at = 0;
    let mut place = 0;
    for n in 0..RECORDS {
        let s = grammar::slot_at(form, n);
        at += put_record(&mut out[at..], d, s, place);
        place += s.places;
    }
    at
}

// ---- where a file is refused

fn put_ends_within(out: &mut [u8], p: usize, s: Slot) -> usize
    requires { length (place_text (EndsWithin p (slot_in s))) ≤ length out.old }
    ensures { Put (place_text (EndsWithin p (slot_in s))) out.old out.new result }
{
    put_pieces(
        out,
        &[
            Piece::Bytes(b"record "),
            Piece::Number(p),
            Piece::Bytes(b" ("),
            Piece::Name(s),
            Piece::Bytes(b"): the file ends within it\n"),
        ],
    )
}

#[tactic(auto, unfolding(crate::specs::Places::place_text, crate::specs::Pieces::pieces_text, base::specs::Text::text))]
fn put_other_kind(out: &mut [u8], p: usize, kind: usize, due: usize) -> usize
    requires { length (place_text (OtherKind p kind due)) ≤ length out.old }
    ensures { Put (place_text (OtherKind p kind due)) out.old out.new result }
{
    put_pieces(
        out,
        &[
            Piece::Bytes(b"record "),
            Piece::Number(p),
            Piece::Bytes(b": kind "),
            Piece::Number(kind),
            Piece::Bytes(b" stands where "),
            Piece::Number(due),
            Piece::Bytes(b" is due\n"),
        ],
    )
}

fn put_other_length(out: &mut [u8], p: usize, s: Slot, size: usize, due: usize) -> usize
    requires { length (place_text (OtherLength p (slot_in s) size due)) ≤ length out.old }
    ensures { Put (place_text (OtherLength p (slot_in s) size due)) out.old out.new result }
{
    put_pieces(
        out,
        &[
            Piece::Bytes(b"record "),
            Piece::Number(p),
            Piece::Bytes(b" ("),
            Piece::Name(s),
            Piece::Bytes(b"): "),
            Piece::Number(size),
            Piece::Bytes(b" bytes stand where "),
            Piece::Number(due),
            Piece::Bytes(b" are due\n"),
        ],
    )
}

fn put_outside(out: &mut [u8], p: usize, s: Slot, q: usize, v: i128, lo: i128, hi: i128) -> usize
    requires { length (place_text (OutsideRange p (slot_in s) q v lo hi)) ≤ length out.old }
    ensures { Put (place_text (OutsideRange p (slot_in s) q v lo hi)) out.old out.new result }
{
    put_pieces(
        out,
        &[
            Piece::Bytes(b"record "),
            Piece::Number(p),
            Piece::Bytes(b" ("),
            Piece::Name(s),
            Piece::Bytes(b"), number "),
            Piece::Number(q),
            Piece::Bytes(b": "),
            Piece::Written(v),
            Piece::Bytes(b" is not "),
            Piece::Written(lo),
            Piece::Bytes(b" to "),
            Piece::Written(hi),
            Piece::Bytes(b"\n"),
        ],
    )
}

#[tactic(auto, unfolding(crate::specs::Places::place_text, crate::specs::Pieces::pieces_text, base::specs::Text::text))]
fn put_behind_end(out: &mut [u8], n: usize) -> usize
    requires { length (place_text (BehindEnd n)) ≤ length out.old }
    ensures { Put (place_text (BehindEnd n)) out.old out.new result }
{
    put_pieces(
        out,
        &[Piece::Number(n), Piece::Bytes(b" bytes follow the end\n")],
    )
}

// Where a file is refused, as a line.
pub fn put_place(out: &mut [u8], place: Place) -> usize
    requires { length (place_text (place_of place)) ≤ length out.old }
    ensures { Put (place_text (place_of place)) out.old out.new result }
{
    match place {
        Place::EndsWithin(p, s) => put_ends_within(out, p, s),
        Place::OtherKind(p, kind, due) => put_other_kind(out, p, kind, due),
        Place::OtherLength(p, s, size, due) => put_other_length(out, p, s, size, due),
        Place::OutOfRange(p, s, q, v, lo, hi) => put_outside(out, p, s, q, v, lo, hi),
        Place::BehindEnd(n) => put_behind_end(out, n),
    }
}

// The two lines of a file that is refused.
pub fn put_refused_at(out: &mut [u8], place: Place) -> usize
    requires { longest_refusal + longest_place ≤ length out.old }
    ensures { Put (refusal (refusal_at (place_of place)) ++ place_text (place_of place)) out.old out.new result }
{
    let at = listing::put_refused(out, refused::refusal_at(place));
    at + put_place(&mut out[at..], place)
}
