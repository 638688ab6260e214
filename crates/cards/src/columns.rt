// The columns of the cards, and the range of what stands in them.
ghost use Rattle.std.specs.Prelude.{◌≡◌, ◌+◌, ◌<◌};
ghost use Rattle.rules.specs.Deck.{per_card, row, cut as Deck·cut, range_of};
ghost use Rattle.rules.specs.District.{bars_at};
ghost use Rattle.cards.specs.Cards.{columns_in, counts_with, rows_before};

use rules::places::{
    DISTRESS_COUNT, ENVIRONMENT, LENGTH, PAVEMENT_COUNT, SEGMENT_COUNT, STRATEGY_COUNT, TRAFFIC,
    WIDTH, YEAR_COUNT,
};
use rules::{Field, Notation};

// How many numbers a card has.
pub const PER_CARD: usize = 5;

// The counts N, S, T, D and Y, or a segment's length, width, highway type, traffic and environment. By place and not by name,
// since the rules' rows and the file's record count them so, and one reader reads both cards.
pub type Numbers = [usize; PER_CARD];

// A card with numbers: that of the counts, or a segment's in a deck with these counts.
#[derive(Clone, Copy)]
pub enum Card<'a> {
    Counts,
    Segment(&'a Numbers),
}

// Where a number stands on its card, from the first column to the last; how it is written; and which number it is of
// the file's record.
#[derive(Clone, Copy)]
pub struct Columns {
    pub first: usize,
    pub last: usize,
    pub notation: Notation,
    pub place: usize,
}

// By a macro, since a constant may call no function.
macro_rules! number {
    ($first:expr, $last:expr, $notation:expr, $place:expr) => {
        Columns {
            first: $first,
            last: $last,
            notation: $notation,
            place: $place,
        }
    };
}

// Tables, since the columns follow no rule that a function could compute.
const COUNTS: [Columns; PER_CARD] = [
    number!(1, 5, Notation::Whole, SEGMENT_COUNT),
    number!(6, 10, Notation::Whole, STRATEGY_COUNT),
    number!(16, 20, Notation::Whole, YEAR_COUNT),
    number!(21, 25, Notation::Whole, DISTRESS_COUNT),
    number!(26, 30, Notation::Whole, PAVEMENT_COUNT),
];

// The highway type is the first number of a segment's record.
const SEGMENT: [Columns; PER_CARD] = [
    number!(1, 8, Notation::Hundredths, LENGTH),
    number!(9, 16, Notation::Units, WIDTH),
    number!(17, 20, Notation::Whole, 0),
    number!(21, 28, Notation::Hundredths, TRAFFIC),
    number!(29, 36, Notation::Hundredths, ENVIRONMENT),
];

// The columns of a card's number, counted from 0.
pub fn nth(card: Card, n: usize) -> Columns
    requires { n < per_card }
    ensures row { columns_in card.entry result ≡ row (rows_before card.entry + n + 1) }
    ensures place { result.place < bars_at }
{
    match card {
        Card::Counts => COUNTS[n],
        Card::Segment(_) => SEGMENT[n],
    }
}

// The bytes of a line in these columns.
#[tactic(auto, unfolding(rules::specs::Deck::cut))]
pub fn cut(c: Columns, line: &[u8]) -> &[u8]
    ensures { (card : Card) → result.now ≡ Deck·cut (columns_in card c) line.now }
{
    text::drop(text::take(line, c.last), c.first.saturating_sub(1))
}

// The range of their number on the card.
#[tactic(auto, unfolding(rules::specs::Deck::range_of))]
pub fn range_of(card: Card, c: Columns) -> Field
    requires { c.place < bars_at }
    ensures { result ≡ range_of (counts_with card.entry) (columns_in card.entry c) }
{
    match card {
        Card::Counts => grammar::count_field(c.place),
        Card::Segment(counts) => grammar::road_field(counts[PAVEMENT_COUNT], c.place),
    }
}
