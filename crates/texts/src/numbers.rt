// Words as numbers, and the numbers of a field as a text has them (specs/Numbers.antt).
ghost use Rattle.std.specs.Prelude.{◌≡◌, ◌<◌, ◌^◌, IfSome, Some, IsTrue, ◌<ℤ◌, pos};
ghost use Rattle.texts.specs.Numbers.{with_sign, has_minus, behind_minus, size_of, value_of, shown_in, in_field, held_as};

use rules::Field;

// What digits stand for. By a loop in 128 bits: twenty digits may be more than the 64 bits of text's `digits_after` hold.
fn size(digits: &[u8]) -> Option<u128>
    ensures value { result ≡ size_of digits.now }
    ensures few { IfSome result (λ n. n < 10 ^ 20) }
{
    if digits.is_empty() {
        return None;
    }
    if 20 < digits.len() {
        return None;
    }
    let mut size = 0;
    for byte in digits {
        if !byte.is_ascii_digit() {
            return None;
        }
        size = size * 10 + u128::from(byte - b'0');
    }
    Some(size)
}

// A size as a number with its sign.
fn signed(is_negative: bool, size: u128) -> i128
    requires { size < 10 ^ 20 }
    ensures { Some result ≡ with_sign is_negative (Some size) }
{
    if is_negative {
        -(size as i128)
    } else {
        size as i128
    }
}

// Whether a '-' stands in front, and what stands behind it.
fn parted(word: &[u8]) -> (bool, &[u8])
    ensures { (result.0 ≡ has_minus word.now) × (result.1.now ≡ behind_minus word.now) }
{
    if word.starts_with(b"-") {
        (true, text::drop(word, 1))
    } else {
        (false, word)
    }
}

// The number that a word is, where it is one.
#[tactic(auto, unfolding(crate::specs::Numbers::value_of))]
pub fn value(word: &[u8]) -> Option<i128>
    ensures { result ≡ value_of word.now }
{
    let (is_negative, digits) = parted(word);
    Some(signed(is_negative, size(digits)?))
}

// What a number of the district is, where it stands in the field.
pub fn shown_in(f: Field, x: usize) -> i128
    ensures { result ≡ shown_in f x }
{
    if f.hi < f.lo && 128 <= x {
        x as i128 - 256
    } else {
        x as i128
    }
}

pub fn is_in(f: Field, v: i128) -> bool
    ensures value { result ≡ in_field f v }
    ensures few { IsTrue result → v <ℤ pos (2 ^ 64) }
{
    shown_in(f, f.lo) <= v && v <= shown_in(f, f.hi)
}

// The district's number for one that a field may hold: a negative one is 256 more.
pub fn held_as(v: i128) -> usize
    requires { v <ℤ pos (2 ^ 64) }
    ensures { result ≡ held_as v }
{
    if v < 0 {
        usize::try_from(v + 256).unwrap_or(0)
    } else {
        v as usize
    }
}
