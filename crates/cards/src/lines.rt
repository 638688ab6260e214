// The lines of a deck.
ghost use Rattle.std.specs.Prelude.{◌≡◌, ◌≤◌, true, false, MatchResult};
ghost use Rattle.rules.specs.declared.refusals.Refusal.TheVariants.{WrongLine};
ghost use Rattle.rules.specs.Deck.{line_at, is_line};
ghost use Rattle.cards.specs.Cards.{most_lines};

use rules::Refusal;

const LINE_FEED: u8 = b'\n';

// The characters of a line.
pub const PER_LINE: usize = 80;

// A line with its line feed, counted from 0, where those before it have their length.
#[tactic(auto, unfolding(rules::specs::Deck::line_at))]
fn line_at(deck: &[u8], n: usize) -> &[u8]
    requires { n ≤ most_lines }
    ensures { result.now ≡ line_at deck.now n }
{
    text::take(text::drop(deck, n * (PER_LINE + 1)), PER_LINE + 1)
}

#[tactic(auto, using(std::proofs::lemmas::Bool::Decides::nat_tests), unfolding(rules::specs::Deck::is_line))]
fn is_line(line: &[u8]) -> bool
    ensures { result ≡ is_line line.now }
{
    text::find(line, LINE_FEED) == PER_LINE && PER_LINE < line.len()
}

// The same, where it has its length.
pub fn nth(deck: &[u8], n: usize) -> Result<&[u8], Refusal>
    requires { n ≤ most_lines }
    ensures { MatchResult result (λ line. (is_line (line_at deck.now n) ≡ true) × (line.now ≡ line_at deck.now n)) (λ refusal. (is_line (line_at deck.now n) ≡ false) × (refusal ≡ WrongLine)) }
{
    let line = line_at(deck, n);
    if is_line(line) {
        Ok(line)
    } else {
        Err(Refusal::WrongLine)
    }
}
