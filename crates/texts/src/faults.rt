// What may be wrong with a text (specs/Complaints.antt), with its words as they stand in it.

// With a line.
#[derive(Clone, Copy)]
pub enum Fault<'a> {
    // A word, and the kind of the record whose word is due.
    OtherWord(&'a [u8], usize),
    // So many numbers stand there, and so many are due.
    NumberMissing(usize, usize),
    NoNumber(&'a [u8]),
    // A word, and the least and the greatest number that may stand there.
    OutOfRange(&'a [u8], i128, i128),
    NumberTooMany(usize),
    BehindEnd,
    // The kind of the record that is still due.
    EndMissing(usize),
}

// With a text: its length, or a line, by its number.
#[derive(Clone, Copy)]
pub enum Complaint<'a> {
    TooLong,
    InLine(usize, Fault<'a>),
}
