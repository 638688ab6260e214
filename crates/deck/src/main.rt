// Reads the first cards of a deck from standard input, and prints the counts and a line for each segment, or the
// refusal. What stands behind the cards of the most segments is not read.
#![tactic(auto)]

ghost use Rattle.std.specs.Prelude.{List, ◌≡◌, ℕ, ◌≤◌, OnOk, length};
ghost use Rattle.base.specs.Text.{Put};
ghost use Rattle.input.specs.Reading.{Prints};
ghost use Rattle.listing.specs.Listing.{lines_from};
ghost use Rattle.rules.specs.Deck.{longest_deck};
ghost use Rattle.rules.specs.District.{most_segments, segments_of};
ghost use Rattle.deck.specs.Printed.{numbers_line, counts_line, segment_line, numbers_at, held_lines, printed, NotRead, longest_printed};

use cards::{Deck, LONGEST_DECK, Numbers};
use rules::places::{MOST_SEGMENTS, SEGMENT_COUNT};
use std::io;
use std::io::{Read, Write};

// The most bytes of what is printed: the counts and a line for each segment, with numbers of up to 20 digits.
const LONGEST_PRINTED: usize = 112 + 126 * MOST_SEGMENTS;

// Each behind a blank, and the end of the line. By a loop, as in `put_segments`: of what a chain's closure writes a proof knows
// nothing. One function for both, over a closure that writes, has clauses on when that may be called and on what it puts
// that are longer than the two loops.
fn put_numbers(out: &mut [u8], numbers: &Numbers) -> usize
    requires { length (numbers_line numbers.now) ≤ length out.old }
    ensures { Put (numbers_line numbers.now) out.old out.new result }
{
    let mut at = 0;
    for number in numbers {
        at += listing::put_named(&mut out[at..], b" ", *number);
    }
    at + listing::put(&mut out[at..], b"\n")
}

#[tactic(auto, unfolding(crate::specs::Printed::counts_line, base::specs::Text::text))]
fn put_counts(out: &mut [u8], counts: &Numbers) -> usize
    requires { length (counts_line counts.now) ≤ length out.old }
    ensures { Put (counts_line counts.now) out.old out.new result }
{
    let at = listing::put(out, b"counts");
    at + put_numbers(&mut out[at..], counts)
}

// Of segment `i`.
#[tactic(auto, unfolding(crate::specs::Printed::segment_line))]
fn put_segment(out: &mut [u8], i: usize, numbers: &Numbers) -> usize
    requires { length (segment_line (λ _. numbers.now) i) ≤ length out.old }
    ensures { Put (segment_line (λ _. numbers.now) i) out.old out.new result }
{
    let at = listing::put_number(out, i);
    at + put_numbers(&mut out[at..], numbers)
}

// A line for each segment. A loop, as in `put_numbers`.
fn put_segments(out: &mut [u8], segments: &[Numbers]) -> usize
    requires { length (lines_from (length segments.now) 1 (segment_line (numbers_at segments.now))) ≤ length out.old }
    ensures { Put (lines_from (length segments.now) 1 (segment_line (numbers_at segments.now))) out.old out.new result }
{
    let mut at = 0;
    for (i, numbers) in segments.iter().enumerate() {
        at += put_segment(&mut out[at..], i + 1, numbers);
    }
    at
}

fn put_cards(out: &mut [u8], deck: &Deck) -> usize
    requires few { segments_of deck.now.counts ≤ most_segments }
    requires room { length (held_lines deck.now) ≤ length out.old }
    ensures { Put (held_lines deck.now) out.old out.new result }
{
    let at = put_counts(out, &deck.counts);
    at + put_segments(&mut out[at..], &deck.segments[..deck.counts[SEGMENT_COUNT]])
}

// What is printed for a deck, to the front of `out`.
fn answer(bytes: &[u8], out: &mut [u8]) -> usize
    requires { longest_printed ≤ length out.old }
    ensures { Put (printed bytes.now) out.old out.new result }
{
    match cards::read(bytes) {
        Ok(deck) => put_cards(out, &deck),
        Err(refusal) => listing::put_refusal(out, refusal),
    }
}

// What is printed for the first bytes of the input goes to the output. The programs of this kind are one call each: what a
// program has of its own is what it answers, by its contract, and the room for it.
#[tactic(auto, using(base::proofs::Text::put_within, crate::proofs::Printed::not_read))]
fn run<R: Read, W: Write>(input: &mut R, output: &mut W) -> io::Result<()>
    ensures prints { OnOk result (Prints printed longest_deck (R.remaining input.old) (W.contents output.old) (W.contents output.new)) }
    ensures not_read { (deck : List ℕ) → NotRead deck }
{
    input::answered::<LONGEST_DECK, LONGEST_PRINTED, _, _, _>(input, output, answer)
}

fn main(rt: HostRuntime) -> io::Result<()> {
    run(&mut rt.stdin(), &mut rt.stdout())
}
