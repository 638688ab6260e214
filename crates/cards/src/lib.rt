// The first cards of a deck in the report's layout, read for any bytes: the title, the counts and the segments. Each
// function computes the rules' definition of nearly the same name (rules/specs/Deck.antt).
#![tactic(auto)]

mod columns;
mod fields;
mod lines;

ghost use Rattle.std.specs.Prelude.{◌≡◌, ◌+◌, ◌≤◌, ◌<◌, IfOk};
ghost use Rattle.base.specs.Over.{all};
ghost use Rattle.rules.specs.Answers.{wrong_field, unless, refusal_in};
ghost use Rattle.rules.specs.Deck.{per_card, only_inside, field_on, is_good, line_at, numbers_on, card_refusal, deck_refusal};
ghost use Rattle.cards.specs.Cards.{most_lines, counts_with, rows_before, Says};

use columns::Card;
pub use columns::{Numbers, PER_CARD};
use rules::places::{MOST_SEGMENTS, SEGMENT_COUNT};
use rules::{Field, Refusal};

// The most bytes that are ever read: title, counts and segments, each with its line feed.
pub const LONGEST_DECK: usize = (lines::PER_LINE + 1) * (MOST_SEGMENTS + 2);

// The counts, and the numbers of each segment, with zeros behind the last. An array: the kit's ArrayVec is no Copy, and with it
// a deck is none.
#[derive(Clone, Copy)]
pub struct Deck {
    pub counts: Numbers,
    pub segments: [Numbers; MOST_SEGMENTS],
}

// The number, where it is in the range.
#[tactic(auto, unfolding(rules::specs::Deck::only_inside))]
fn only_inside(range: Field, number: Option<usize>) -> Option<usize>
    ensures { result ≡ only_inside range number }
{
    number.filter(|value| grammar::is_inside(range, *value))
}

// The number of a card, counted from 0.
fn read_field(card: Card, line: &[u8], n: usize) -> Option<usize>
    requires { n < per_card }
    ensures { result ≡ field_on (counts_with card.entry) line.now (rows_before card.entry + n + 1) }
{
    let c = columns::nth(card, n);
    let number = fields::read(c.notation, columns::cut(c, line));
    only_inside(columns::range_of(card, c), number)
}

// The numbers of a card, each in its field.
fn read_fields(card: Card, line: &[u8]) -> Result<Numbers, Refusal>
    ensures refused { refusal_in result ≡ unless (all per_card (is_good (counts_with card.entry) line.now (rows_before card.entry))) wrong_field 0 }
    ensures numbers { IfOk result (λ numbers. numbers ≡ numbers_on (counts_with card.entry) line.now (rows_before card.entry)) }
{
    // By a loop. Tried with `array::try_from_fn`: its clauses do not say that the closure which it calls is the one that it was
    // given, so nothing is known of the card and the line in there.
    let mut numbers = [0; PER_CARD];
    for (n, number) in numbers.iter_mut().enumerate() {
        *number = read_field(card, line, n).ok_or(Refusal::WrongField)?;
    }
    Ok(numbers)
}

// Of the card on a line: its length comes before its fields.
#[tactic(auto, unfolding(rules::specs::Deck::card_refusal))]
fn read_card(card: Card, deck: &[u8], line: usize) -> Result<Numbers, Refusal>
    requires { line ≤ most_lines }
    ensures refused { refusal_in result ≡ card_refusal (counts_with card.entry) (line_at deck.now line) (rows_before card.entry) }
    ensures numbers { IfOk result (λ numbers. numbers ≡ numbers_on (counts_with card.entry) (line_at deck.now line) (rows_before card.entry)) }
{
    read_fields(card, lines::nth(deck, line)?)
}

// By the first card that is refused. What stands behind the segments is not read.
pub fn read(deck: &[u8]) -> Result<Deck, Refusal>
    ensures refused { refusal_in result ≡ deck_refusal deck.now }
    ensures says { IfOk result (λ d. Says deck.now d) }
{
    // The title.
    lines::nth(deck, 0)?;
    let counts = read_card(Card::Counts, deck, 1)?;
    // By a loop: of a `collect` into a Result no clause says what it holds, and `try_collect` asks for an allocator, and that a
    // refusal can be made of its error.
    let mut segments = [[0; PER_CARD]; MOST_SEGMENTS];
    for i in 0..counts[SEGMENT_COUNT] {
        segments[i] = read_card(Card::Segment(&counts), deck, i + 2)?;
    }
    Ok(Deck { counts, segments })
}
