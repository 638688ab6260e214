// The roughness meter's window: the last readings, 32-bit floats, with their exact sum; and the points for it.
#![tactic(auto)]

ghost use Rattle.std.specs.Prelude.{◌≡◌, ℕ, ◌*◌, ◌/◌, ◌<◌, ◌≤◌, false, List, length, from_bits};
ghost use Rattle.std.specs.Float.{binary32};
ghost use Rattle.std.specs.Float.Ieee.Exact.{HasValue};
ghost use Rattle.rules.specs.Answers.{answer_in};
ghost use Rattle.rules.specs.Meter.{Heard, nothing_heard, is_reading, reading_of, heard_with, heard_after, sum_of, mays_points, roughness_of};
ghost use Rattle.rules.specs.declared.Sent.{Sent};
ghost use Rattle.rules.specs.declared.Sent.TheVariants.{Index as Sent-as-Index, Marker as Sent-as-Marker};
ghost use Rattle.meter.specs.Window.{record_of, bits_of, Counts, Holds, stepped, Follows, After, unsigned};

use rules::{Answer, Refusal, Roughness, Sent};
use std::num::{f32_from_bits_with_nan, truncating_f32_to_u64};

// A record of the van with its float; this form is prescribed. Index and marker stay two variants of one shape: what each does
// to the window is another thing, and one variant with a flag would ask for the flag wherever it is matched.
#[derive(Clone, Copy)]
pub enum Record {
    Index(f32),
    Marker(f32),
    Lost,
}

pub const WINDOW_SIZE: usize = 64;

// The last readings since the last marker, in a ring whose unused places are 0; `next`, modulo 64, is the place of the next
// one. The marker's bits are kept beside its float, which forgets a NaN's. The sum beside the readings is prescribed, and
// memory is fixed. In an ArrayVec, which would hold the count, every reading past the 64th would move 63 others, and `put`
// would ask whether the window is full: here it subtracts what stands at its place. That it holds what was heard is no ghost
// field: what was heard is a list that no code holds, and any window may be handed in.
#[derive(Clone, Copy)]
pub struct Window {
    pub readings: [f32; WINDOW_SIZE],
    pub sum: f32,
    pub count: usize,
    pub next: usize,
    pub marker: f32,
    pub bits: u32,
}

#[tactic(auto, unfolding(crate::specs::Window::record_of))]
impl From<Sent> for Record {
    ghost from_gives = { λ s r. r ≡ record_of s };

    fn from(s: Sent) -> Record {
        match s {
            Sent::Index(bits) => Record::Index(f32_from_bits_with_nan(bits)),
            Sent::Marker(bits) => Record::Marker(f32_from_bits_with_nan(bits)),
            Sent::Lost => Record::Lost,
        }
    }
}

#[tactic(auto, unfolding(crate::specs::Window::bits_of))]
fn bits_of(s: Sent) -> u32
    ensures { result ≡ bits_of s }
{
    match s {
        Sent::Index(bits) | Sent::Marker(bits) => bits,
        Sent::Lost => 0,
    }
}

// The whole 1024ths in x; 0 where x is not from 0 to below 512. Nobody is told by that 0, so it is no Option: `is_reading` tests x
// before, the window's sum is from 0 to below 512, and of any other window `roughness` needs the bound alone.
fn parts_in(x: f32) -> u64
    ensures parts { (a c : ℕ) → 0 < c → HasValue x false a c → a < 512 * c → result ≡ a * 1024 / c }
    ensures small { result < 524288 }
{
    if 0.0 < x && x < 512.0 {
        truncating_f32_to_u64(x * 1024.0)
    } else {
        0
    }
}

fn is_reading(x: f32) -> bool
    ensures { (bits : ℕ) → x ≡ from_bits binary32 bits → result ≡ is_reading bits }
{
    if 0.0 < x && x < 8.0 {
        parts_in(x) as f32 == x * 1024.0
    } else {
        x == 0.0
    }
}

// Minus zero is zero.
fn plain(x: f32) -> f32
    ensures { result ≡ unsigned x }
{
    if x == 0.0 { 0.0 } else { x }
}

// A reading takes the place of the oldest one, in the ring and in the sum.
fn put(w: &mut Window, x: f32)
    ensures { (h : Heard) (bits : ℕ) → Holds w.old h → Counts x (reading_of bits) → reading_of bits < 8192 → Holds w.new (heard_with h (Sent-as-Index bits)) }
{
    let at = w.next % WINDOW_SIZE;
    let oldest = std::mem::replace(&mut w.readings[at], x);
    w.sum = w.sum - oldest + x;
    w.next = at + 1;
    w.count = w.count.min(WINDOW_SIZE - 1) + 1;
}

// The window behind a marker.
fn empty(marker: f32, bits: u32) -> Window
    ensures { (h : Heard) → marker ≡ from_bits binary32 bits → Holds result (heard_with h (Sent-as-Marker bits)) }
{
    Window {
        readings: [0.0; WINDOW_SIZE],
        sum: 0.0,
        count: 0,
        next: 0,
        marker,
        bits,
    }
}

fn index(w: &mut Window, x: f32) -> Answer
    ensures { (bits : ℕ) → x ≡ from_bits binary32 bits → Follows w.old (Sent-as-Index bits) (stepped result w.new) }
{
    if !is_reading(x) {
        return Err(Refusal::NoReading);
    }
    put(w, plain(x));
    Ok(0)
}

// One record. `bits` stand beside it, as they were sent: its float forgets those of a NaN, and a marker's are to be given
// back.
fn step(w: &mut Window, sent: Record, bits: u32) -> Answer
    ensures { (s : Sent) → sent ≡ record_of s → bits ≡ bits_of s → Follows w.old s (stepped result w.new) }
{
    match sent {
        Record::Index(x) => index(w, x),
        Record::Marker(x) => {
            *w = empty(x, bits);
            Ok(0)
        }
        Record::Lost => Ok(0),
    }
}

// ---- the calls: functions over the window that is lent, as the rules state them and every layer above has them (office,
// station, desk), so not methods

// The window before the first record. No Default: its two clauses have names, and its contract would be one predicate.
pub fn start() -> Window
    ensures start { Holds result nothing_heard }
    ensures run { (ss : List Sent) → After result ss (λ v. Holds v (heard_after ss)) }
{
    empty(0.0, 0)
}

// Its value is 0 always: a call of the rules answers a value, 0 where it has none, and the answers to a list of calls are of
// one type. `step` and `index` give the same.
pub fn hear(w: &mut Window, s: Sent) -> Answer
    ensures { Follows w.old s (stepped result w.new) }
{
    step(w, Record::from(s), bits_of(s))
}

// The points for a sum in 1024ths and a count. The mean reaches t tenths where 10 × sum is at least t × 1024 × count.
#[tactic(auto, using(std::proofs::lemmas::Bool::Decides::nat_tests), unfolding(rules::specs::Meter::mays_points, rules::specs::Meter::mean_reaches))]
fn mays_points(sum: u64, count: u64) -> usize
    requires { (sum < 524288) × (count ≤ 64) }
    ensures { (window : List ℕ) → sum ≡ sum_of window → count ≡ length window → result ≡ mays_points window }
{
    let total = 10 * sum;
    let tenth = 1024 * count;
    if 47 * tenth <= total {
        0
    } else if 35 * tenth <= total {
        5
    } else if 33 * tenth <= total {
        10
    } else if 31 * tenth <= total {
        20
    } else if 29 * tenth <= total {
        30
    } else if 27 * tenth <= total {
        40
    } else {
        50
    }
}

pub fn roughness(w: &Window) -> Result<Roughness, Refusal>
    ensures { (h : Heard) → Holds w.now h → answer_in result ≡ roughness_of h }
{
    if w.count == 0 {
        return Err(Refusal::WindowEmpty);
    }
    let sum = parts_in(w.sum);
    let count = w.count.min(WINDOW_SIZE) as u64;
    Ok(Roughness {
        points: mays_points(sum, count),
        marker: w.bits,
    })
}
