// The records of a text by their words, and which of their numbers the district has (specs/Records.antt).
ghost use Rattle.std.specs.Prelude.{◌≡◌};
ghost use Rattle.base.specs.Same.{same};
ghost use Rattle.grammar.specs.Slots.{slot_in};
ghost use Rattle.texts.specs.Records.{word_of, is_due, due_before};

use grammar::Slot;
use rules::District;

// The word of a record, by the number of its kind in a file.
#[tactic(auto, using(base::proofs::Choice::picks), unfolding(crate::specs::Records::word_of, base::specs::Text::text))]
pub fn word_of(kind: usize) -> &'static [u8]
    ensures { result.now ≡ word_of kind }
{
    match kind {
        1 => b"district",
        2 => b"limits",
        3 => b"greatest",
        4 => b"strategy",
        5 => b"pavement",
        6 => b"segment",
        8 => b"led-district",
        _ => b"end",
    }
}

// Whether it is this word.
pub fn is_word(word: &[u8], kind: usize) -> bool
    ensures { result ≡ same word.now (word_of kind) }
{
    word == word_of(kind)
}

// Whether the district has the `n`-th number of the record.
pub fn is_due(d: &District, s: Slot, n: usize) -> bool
    ensures { result ≡ is_due d.now (slot_in s) n }
{
    0 < grammar::field_at(d, s, n).width
}

// How many numbers the district has of those before the `n`-th of the record.
pub fn due_before(d: &District, s: Slot, n: usize) -> usize
    ensures { result ≡ due_before d.now (slot_in s) n }
{
    let mut due = 0;
    for i in 0..n {
        due += usize::from(is_due(d, s, i));
    }
    due
}
