// A line of the page: cells over one list of widths.
ghost use Rattle.std.specs.Prelude.{◌++◌, ◌≡◌, ◌+◌, ◌≤◌, length, replicate};
ghost use Rattle.base.specs.Text.{text, Put};
ghost use Rattle.rules.specs.Page.{widths, line, right_aligned, miles, heading};
ghost use Rattle.pages.specs.Printed.{line_bytes};
ghost use Rattle.pages.specs.Cells.{text_of, longest_text, texts};

// What stands in a column: nothing, a number, or hundredths of a mile in miles.
#[derive(Clone, Copy)]
pub enum Cell {
    Blank,
    Number(usize),
    Miles(usize),
}

pub const COLUMNS: usize = 9;

const WIDTHS: [usize; COLUMNS] = [2, 5, 3, 2, 14, 9, 9, 9, 9];

// A number of 20 digits, with a point and two further ones.
const LONGEST_TEXT: usize = 23;

// ---- the text of a cell

#[tactic(auto, using(base::proofs::Text::decimal_few, base::proofs::Text::front_fits, listing::proofs::Pieces::second_fits, listing::proofs::Pieces::put_two), unfolding(rules::specs::Page::miles, base::specs::Text::text))]
fn put_miles(out: &mut [u8], hundredths: usize) -> usize
    requires { longest_text ≤ length out.old }
    ensures { Put (miles hundredths) out.old out.new result }
{
    let at = listing::put_number(out, hundredths / 100);
    let tenths = b'0' + (hundredths / 10 % 10) as u8;
    let last = b'0' + (hundredths % 10) as u8;
    at + listing::put(&mut out[at..], &[b'.', tenths, last])
}

#[tactic(auto, using(base::proofs::Text::decimal_few), unfolding(crate::specs::Cells::text_of))]
fn put_text(out: &mut [u8], cell: Cell) -> usize
    requires { longest_text ≤ length out.old }
    ensures { Put (text_of cell) out.old out.new result }
{
    match cell {
        Cell::Blank => 0,
        Cell::Number(n) => listing::put_number(out, n),
        Cell::Miles(n) => put_miles(out, n),
    }
}

// ---- a column

// The same byte n times.
fn put_run(out: &mut [u8], n: usize, byte: u8) -> usize
    requires { n ≤ length out.old }
    ensures { Put (replicate n byte) out.old out.new result }
{
    out[..n].fill(byte);
    n
}

// To the right in `width` characters; asterisks where it has no room.
#[tactic(auto, using(crate::proofs::Texts::aligned_wide))]
fn put_aligned(out: &mut [u8], width: usize, bytes: &[u8]) -> usize
    requires { width ≤ length out.old }
    ensures { Put (right_aligned width bytes.now) out.old out.new result }
{
    if width < bytes.len() {
        return put_run(out, width, b'*');
    }
    let at = put_run(out, width - bytes.len(), b' ');
    at + listing::put(&mut out[at..], bytes)
}

// A cell and the blank behind it.
fn put_cell(out: &mut [u8], width: usize, cell: Cell) -> usize
    requires { width + 1 ≤ length out.old }
    ensures { Put (right_aligned width (text_of cell) ++ text " ") out.old out.new result }
{
    let mut bytes = [0u8; LONGEST_TEXT];
    let n = put_text(&mut bytes, cell);
    let at = put_aligned(out, width, &bytes[..n]);
    at + listing::put(&mut out[at..], b" ")
}

// ---- a line

#[tactic(auto, unfolding(rules::specs::Page::right_aligned, rules::specs::Page::line, rules::specs::Page::heading, base::specs::Text::text))]
pub fn put_heading(out: &mut [u8]) -> usize
    requires { line_bytes ≤ length out.old }
    ensures { Put (line widths heading) out.old out.new result }
{
    listing::put(
        out,
        b"NO MILES  FT ST        BENEFIT        R1        R2        R3        R4          \n",
    )
}

// By a loop, as listing's put_segment_lines.
pub fn put_row(out: &mut [u8], row: [Cell; COLUMNS]) -> usize
    requires { line_bytes ≤ length out.old }
    ensures { Put (line widths (texts row)) out.old out.new result }
{
    let mut at = 0;
    for (width, cell) in WIDTHS.iter().zip(row.iter()) {
        at += put_cell(&mut out[at..], *width, *cell);
    }
    at + listing::put(&mut out[at..], b"         \n")
}
