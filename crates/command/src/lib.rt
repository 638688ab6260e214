// A line of the panel as a command, for any bytes at all and any number of them.
#![tactic(auto)]

ghost use Rattle.std.specs.Prelude.{◌≡◌, ◌≤◌, true, false, drop, length, Some, MatchOption};
ghost use Rattle.std.specs.List.{slice_get};
ghost use Rattle.std.specs.Option.{unwrap_or};
ghost use Rattle.base.specs.Same.{same};
ghost use Rattle.command.specs.Reading.{is_space, number_in, first_number, after_number, arguments, at, placed, path_of, is_path, has_stroke, blocks_in, row_in, made, numbered as Reading·numbered, taken, names, rows, row_of, called as Reading·called, is_comment, queued_in, command_in, count_of, longest_line};

use arrayvec::ArrayVec;
use rules::{Edit, Sent};

// A longer line is no command, unless it is a comment.
pub const LONGEST_LINE: usize = 4096;

// No line has room for more numbers: each takes two bytes.
pub const LONGEST_ROW: usize = LONGEST_LINE / 2;

// It ends a word.
const BLANK: u8 = b' ';

// It stands between two blocks.
const STROKE: u8 = b'/';

#[derive(Clone, Copy)]
pub enum Command {
    // A line to pass over, and one that is no command. That is an answer of its own, which the console prints, and the
    // definition (command_in) has it. Inside, what is no command is None, and parse says this for it.
    Nothing,
    Unknown,
    // Without its path, which `path` finds in its line: a list's call, which `numbered` reads, has none.
    Load,
    Export,
    Alter(Edit),
    Show,
    Points(usize, usize, usize, usize),
    Page,
    Why(usize, usize),
    Send(Sent),
    Roughness,
    // Calls of later lines name that office.
    Office(usize),
    // An edit for a console's queue.
    Queue(usize, Edit),
    Step,
    // Without its row, which `row` finds in its line: how many numbers a block has is the unit's.
    Blocks,
}

#[derive(Clone, Copy)]
pub enum Name {
    Load,
    Export,
    Bar,
    Unbar,
    Limit,
    Rating,
    Show,
    Points,
    Page,
    Why,
    Index,
    Marker,
    Lost,
    Roughness,
    Leader,
    Office,
    Queue,
    Step,
    Blocks,
}

// What a word takes: so many numbers, a path, a number and an edit, or blocks.
#[derive(Clone, Copy)]
pub enum Takes {
    Numbers(usize),
    Path,
    Queued,
    Blocks,
}

impl Name {
    const ALL: [Name; 19] = [
        Name::Load,
        Name::Export,
        Name::Bar,
        Name::Unbar,
        Name::Limit,
        Name::Rating,
        Name::Show,
        Name::Points,
        Name::Page,
        Name::Why,
        Name::Index,
        Name::Marker,
        Name::Lost,
        Name::Roughness,
        Name::Leader,
        Name::Office,
        Name::Queue,
        Name::Step,
        Name::Blocks,
    ];

    // The name of a row of the table, counted from 0. No TryFrom: an error would have nothing to tell.
    fn at(row: usize) -> Option<Name>
        ensures { result ≡ slice_get names row }
    {
        Name::ALL.get(row).copied()
    }

    // The word that says it.
    #[tactic(auto, unfolding(crate::specs::Reading::row, base::specs::Text::text))]
    fn word(self) -> &'static [u8]
        ensures { result.now ≡ (row_of self).word }
    {
        match self {
            Name::Load => b"load",
            Name::Export => b"export",
            Name::Bar => b"bar",
            Name::Unbar => b"unbar",
            Name::Limit => b"limit",
            Name::Rating => b"rating",
            Name::Show => b"show",
            Name::Points => b"points",
            Name::Page => b"page",
            Name::Why => b"why",
            Name::Index => b"index",
            Name::Marker => b"marker",
            Name::Lost => b"lost",
            Name::Roughness => b"roughness",
            Name::Leader => b"leader",
            Name::Office => b"office",
            Name::Queue => b"queue",
            Name::Step => b"step",
            Name::Blocks => b"blocks",
        }
    }

    // Whether it is said by this word.
    #[tactic(auto, using(crate::proofs::Rows::same_is))]
    fn is_said(self, word: &[u8]) -> bool
        ensures { result ≡ same word.now (row_of self).word }
    {
        word == self.word()
    }

    // What stands behind the word.
    #[tactic(auto, unfolding(crate::specs::Reading::row))]
    fn takes(self) -> Takes
        ensures { result ≡ (row_of self).takes }
    {
        match self {
            Name::Load | Name::Export => Takes::Path,
            Name::Show | Name::Page | Name::Lost | Name::Roughness | Name::Step => {
                Takes::Numbers(0)
            }
            Name::Index | Name::Marker | Name::Office => Takes::Numbers(1),
            Name::Bar | Name::Unbar | Name::Limit | Name::Why | Name::Leader => Takes::Numbers(2),
            Name::Rating => Takes::Numbers(3),
            Name::Points => Takes::Numbers(4),
            Name::Queue => Takes::Queued,
            Name::Blocks => Takes::Blocks,
        }
    }
}

// ---- numbers

#[tactic(auto, using(std::proofs::lemmas::Bool::Decides::nat_tests), unfolding(crate::specs::Reading::number_in))]
fn read_number(word: &[u8]) -> Option<usize>
    ensures { result ≡ number_in word.now }
{
    if !(1..=20).contains(&word.len()) {
        return None;
    }
    text::digits_after(0, word)
}

// The number after one blank, and the bytes behind it.
#[tactic(auto, using(std::proofs::lemmas::Bool::Decides::nat_tests), unfolding(crate::specs::Reading::first_number, crate::specs::Reading::after_number))]
fn first_number(bytes: &[u8]) -> Option<(usize, &[u8])>
    ensures { MatchOption result (first_number bytes.now ≡ None) (λ r. (first_number bytes.now ≡ Some r.0) × (r.1.now ≡ after_number bytes.now)) }
{
    let [BLANK, rest @ ..] = bytes else {
        return None;
    };
    let number = read_number(text::up_to(rest, BLANK))?;
    Some((number, text::on_from(rest, BLANK)))
}

// So many numbers and then the end; 0 behind them. Four places for each word: `make` names a word's numbers by one
// pattern, and the slice of an ArrayVec would want one for each count.
fn read_arguments(bytes: &[u8], n: usize) -> Option<[usize; 4]>
    requires { n ≤ 4 }
    ensures { placed result ≡ placed (arguments n bytes.now) }
{
    let mut numbers = [0; 4];
    let mut rest = bytes;
    // A loop: each number is read from what the one before it left.
    for number in &mut numbers[..n] {
        (*number, rest) = first_number(rest)?;
    }
    rest.is_empty().then_some(numbers)
}

// ---- paths

// What follows the first word and its blank.
#[tactic(auto, unfolding(crate::specs::Reading::path_of))]
fn behind_word(line: &[u8]) -> &[u8]
    ensures { result.now ≡ path_of line.now }
{
    text::drop(text::on_from(line, BLANK), 1)
}

// The path of a load or an export: all that stands behind its word.
pub fn path(line: &[u8]) -> &[u8]
    ensures { result.now ≡ path_of line.now }
{
    behind_word(line)
}

#[tactic(auto, using(std::proofs::lemmas::Bool::Decides::nat_tests), unfolding(crate::specs::Reading::is_path))]
fn is_path(path: &[u8]) -> bool
    ensures { result ≡ is_path path.now }
{
    (1..=255).contains(&path.len()) && path.iter().all(|byte| *byte != 0)
}

// ---- blocks

// What follows the stroke between two blocks, which stands after one blank.
#[tactic(auto, using(std::proofs::lemmas::Bool::Decides::nat_tests), unfolding(crate::specs::Reading::has_stroke))]
fn behind_stroke(bytes: &[u8]) -> Option<&[u8]>
    ensures { MatchOption result (has_stroke bytes.now ≡ false) (λ r. (has_stroke bytes.now ≡ true) × (r.now ≡ drop 2 bytes.now)) }
{
    let [BLANK, STROKE, rest @ ..] = bytes else {
        return None;
    };
    Some(rest)
}

// The numbers of blocks, so many in each, and then the end.
fn read_blocks(bytes: &[u8], each: usize) -> Option<ArrayVec<usize, LONGEST_ROW>>
    requires { length bytes.now ≤ longest_line }
    ensures { MatchOption result (blocks_in each bytes.now ≡ None) (λ r. blocks_in each bytes.now ≡ Some r.items) }
{
    let mut row = ArrayVec::new();
    let mut rest = bytes;
    // How many are due in the block that has begun.
    let mut due = each;
    // A loop: each number is read from what the one before it left.
    loop {
        if due == 0 {
            if rest.is_empty() {
                return Some(row);
            }
            rest = behind_stroke(rest)?;
            due = each;
        } else {
            let (number, behind) = first_number(rest)?;
            row.push(number);
            rest = behind;
            due -= 1;
        }
    }
}

// The row of numbers by which a line chooses blocks, so many for each; None where anything else stands behind its word. By
// the word alone none are chosen.
pub fn row(line: &[u8], each: usize) -> Option<ArrayVec<usize, LONGEST_ROW>>
    ensures { MatchOption result (row_in each line.now ≡ None) (λ r. row_in each line.now ≡ Some r.items) }
{
    if line.len() > LONGEST_LINE {
        return None;
    }
    let blocks = text::on_from(line, BLANK);
    if blocks.is_empty() {
        return Some(ArrayVec::new());
    }
    read_blocks(blocks, each)
}

// ---- commands

// None where a number is too large for the name, and for queue, whose numbers are read by its own function.
fn make(name: Name, numbers: [usize; 4]) -> Option<Command>
    ensures { unwrap_or result Command.Unknown ≡ made name (at numbers) }
{
    let [a, b, c, d] = numbers;
    Some(match name {
        Name::Load => Command::Load,
        Name::Export => Command::Export,
        Name::Bar => Command::Alter(Edit::Bar(a, b)),
        Name::Unbar => Command::Alter(Edit::Unbar(a, b)),
        Name::Limit => Command::Alter(Edit::SetLimit(a, b)),
        Name::Rating => Command::Alter(Edit::SetRating(a, b, c)),
        Name::Show => Command::Show,
        Name::Points => Command::Points(a, b, c, d),
        Name::Page => Command::Page,
        Name::Why => Command::Why(a, b),
        // The bits of a float are 32, and a number that has more is no command. The two read alike, and say different records.
        Name::Index => Command::Send(Sent::Index(u32::try_from(a).ok()?)),
        Name::Marker => Command::Send(Sent::Marker(u32::try_from(a).ok()?)),
        Name::Lost => Command::Send(Sent::Lost),
        Name::Roughness => Command::Roughness,
        Name::Leader => Command::Alter(Edit::SetLeader(a, b)),
        Name::Office => Command::Office(a),
        Name::Queue => return None,
        Name::Step => Command::Step,
        Name::Blocks => Command::Blocks,
    })
}

// The command of a row of the table, counted from 0, with its numbers; past the last row there is none.
pub fn numbered(row: usize, numbers: [usize; 4]) -> Command
    ensures { result ≡ Reading·numbered row (at numbers) }
{
    Name::at(row)
        .and_then(|name| make(name, numbers))
        .unwrap_or(Command::Unknown)
}

// The numbers behind the first word; a path and blocks have none here, and an edit has them behind a word of its own. By a match: a closure in
// place of `Takes` would have to be handed out by `takes`, which the gate refuses of any function.
#[tactic(auto, using(crate::proofs::Reading::no_numbers), unfolding(crate::specs::Reading::taken))]
fn take(takes: Takes, line: &[u8]) -> Option<[usize; 4]>
    requires { count_of takes ≤ 4 }
    ensures { placed result ≡ taken takes line.now }
{
    match takes {
        Takes::Numbers(n) => read_arguments(text::on_from(line, BLANK), n),
        Takes::Path => is_path(path(line)).then_some([0; 4]),
        Takes::Queued => None,
        Takes::Blocks => Some([0; 4]),
    }
}

// By the row whose word is the line's first; a word without what it takes is no command.
fn called(line: &[u8]) -> Option<Command>
    ensures { unwrap_or result Command.Unknown ≡ Reading·called rows line.now }
{
    let word = text::up_to(line, BLANK);
    let name = Name::ALL.iter().find(|name| name.is_said(word))?;
    make(*name, take(name.takes(), line)?)
}

// Behind the word a console's number, and behind that an edit.
#[tactic(auto, using(crate::proofs::Reading::queued_none, crate::proofs::Reading::queued_edit), unfolding(crate::specs::Reading::queued_in))]
fn queue(line: &[u8]) -> Option<Command>
    ensures { unwrap_or result Command.Unknown ≡ queued_in line.now }
{
    let rest = behind_word(line);
    let console = read_number(text::up_to(rest, BLANK))?;
    match called(behind_word(rest))? {
        Command::Alter(edit) => Some(Command::Queue(console, edit)),
        _ => None,
    }
}

#[tactic(auto, using(std::proofs::lemmas::Bool::Decides::nat_tests), unfolding(crate::specs::Reading::is_space))]
fn is_space(byte: u8) -> bool
    ensures { result ≡ is_space byte }
{
    matches!(byte, b' ' | b'\t' | b'\r')
}

#[tactic(auto, using(std::proofs::lemmas::Bool::Decides::nat_tests), unfolding(crate::specs::Reading::is_comment))]
fn is_comment(line: &[u8]) -> bool
    ensures { result ≡ is_comment line.now }
{
    line.starts_with(b"#")
}

fn read(line: &[u8]) -> Option<Command>
    ensures { unwrap_or result Command.Unknown ≡ command_in line.now }
{
    if is_comment(line) {
        return Some(Command::Nothing);
    }
    if LONGEST_LINE < line.len() {
        return None;
    }
    if line.iter().all(|byte| is_space(*byte)) {
        return Some(Command::Nothing);
    }
    if Name::Queue.is_said(text::up_to(line, BLANK)) {
        return queue(line);
    }
    called(line)
}

pub fn parse(line: &[u8]) -> Command
    ensures { result ≡ command_in line.now }
{
    read(line).unwrap_or(Command::Unknown)
}
