// The lines of a text, and the words of a line, one after another (specs/Words.antt).
ghost use Rattle.std.specs.Prelude.{◌≡◌, ◌∷◌, [], not, MatchOption, MatchResult};
ghost use Rattle.std.specs.List.{position_or_len};
ghost use Rattle.texts.specs.Words.{parts, is_line_feed, is_blank, words_in, words_of};
ghost use Rattle.texts.specs.Found.{lines_left, behind};

use crate::remaining::Remaining;

fn is_blank(byte: u8) -> bool
    ensures { result ≡ is_blank byte }
{
    matches!(byte, b' ' | b'\t' | b'\r')
}

// How many blanks stand in front, and how many bytes before the first blank: two lines, each with its test, as text's `find` and
// `skip`.
fn blanks_in_front(bytes: &[u8]) -> usize
    ensures { result ≡ position_or_len (λ b. not (is_blank b)) bytes.now }
{
    bytes
        .iter()
        .position(|b| !is_blank(*b))
        .unwrap_or(bytes.len())
}

fn before_blank(bytes: &[u8]) -> usize
    ensures { result ≡ position_or_len is_blank bytes.now }
{
    bytes
        .iter()
        .position(|b| is_blank(*b))
        .unwrap_or(bytes.len())
}

// The word that stands first, and what follows it.
pub fn next(bytes: &[u8]) -> Option<(&[u8], &[u8])>
    ensures { MatchOption result (words_in bytes.now ≡ []) (λ r. words_in bytes.now ≡ r.0.now ∷ words_in r.1.now) }
{
    let rest = bytes.split_at(blanks_in_front(bytes)).1;
    if rest.is_empty() {
        return None;
    }
    Some(rest.split_at(before_blank(rest)))
}

// What is read of a line: all before its comment.
pub fn of_line(line: &[u8]) -> &[u8]
    ensures { words_in result.now ≡ words_of line.now }
{
    text::up_to(line, b'#')
}

// The line that stands first, and what follows it.
pub fn next_line(bytes: &[u8]) -> Option<(&[u8], &[u8])>
    ensures { MatchOption result (parts is_line_feed bytes.now ≡ []) (λ r. parts is_line_feed bytes.now ≡ r.0.now ∷ parts is_line_feed r.1.now) }
{
    if bytes.is_empty() {
        return None;
    }
    Some((
        text::up_to(bytes, b'\n'),
        text::drop(text::on_from(bytes, b'\n'), 1),
    ))
}

impl<'a> Remaining<'a> {
    // The next line that has words: its number, what is read of it, and the lines behind it. Where there is none, the number
    // of the line behind the last.
    pub fn next(self) -> Result<(usize, &'a [u8], Remaining<'a>), usize>
        ensures { MatchResult result (λ r. (lines_left self.entry ≡ record { number = r.0; words = words_in r.1.now } ∷ lines_left r.2) × (behind r.2 ≡ behind self.entry)) (λ n. (lines_left self.entry ≡ []) × (n ≡ behind self.entry)) }
    {
        let mut bytes = self.bytes;
        let mut number = self.number;
        while let Some((line, following)) = next_line(bytes) {
            let read = of_line(line);
            bytes = following;
            number += 1;
            if next(read).is_some() {
                return Ok((number - 1, read, Remaining { bytes, number }));
            }
        }
        Err(number)
    }
}
