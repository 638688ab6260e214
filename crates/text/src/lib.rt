// Reading of bytes, as many as there are: parts of them, and what digits stand for.
#![tactic(auto)]

ghost use Rattle.std.specs.Prelude.{◌≡◌, [], ◌∷◌, length, take as ListN·take, drop as ListN·drop};
ghost use Rattle.base.specs.Text.{up_to, on_from, skipped, value_from, held};

// ---- parts

// The first `n` bytes, and those behind them; where there are fewer, all of them, and none. Here and below both parts are
// public, and a caller takes one: so each has its function and its promise.
pub fn take(bytes: &[u8], n: usize) -> &[u8]
    ensures { result.now ≡ ListN·take n bytes.now }
{
    bytes.split_at(n.min(bytes.len())).0
}

pub fn drop(bytes: &[u8], n: usize) -> &[u8]
    ensures { result.now ≡ ListN·drop n bytes.now }
{
    bytes.split_at(n.min(bytes.len())).1
}

// How many bytes stand before the first `byte`. `skip` has the same line with its own test: one function for both would take
// a closure, and its clauses over any test would be longer than the two lines.
pub fn find(bytes: &[u8], byte: u8) -> usize
    ensures { result ≡ length (up_to byte bytes.now) }
{
    bytes.iter().position(|b| *b == byte).unwrap_or(bytes.len())
}

// The bytes before the first `byte`, and those from it on.
pub fn up_to(bytes: &[u8], byte: u8) -> &[u8]
    ensures { result.now ≡ up_to byte bytes.now }
{
    bytes.split_at(find(bytes, byte)).0
}

pub fn on_from(bytes: &[u8], byte: u8) -> &[u8]
    ensures { result.now ≡ on_from byte bytes.now }
{
    bytes.split_at(find(bytes, byte)).1
}

// The bytes behind all those in front that are `byte`.
pub fn skip(bytes: &[u8], byte: u8) -> &[u8]
    ensures { result.now ≡ skipped byte bytes.now }
{
    let front = bytes.iter().position(|b| *b != byte).unwrap_or(bytes.len());
    bytes.split_at(front).1
}

// ---- digits

// The value with one more digit behind it. Not by the library's parse, which begins at 0, where these go on behind other
// digits, takes a `+` in front, and refuses no digits at all, which are 0 here.
fn with_digit(value: usize, byte: u8) -> Option<usize>
    ensures { result ≡ held (value_from value (byte ∷ [])) }
{
    if !byte.is_ascii_digit() {
        return None;
    }
    value.checked_mul(10)?.checked_add(usize::from(byte - b'0'))
}

// What digits stand for, after the value of those before them.
pub fn digits_after(before: usize, bytes: &[u8]) -> Option<usize>
    ensures { result ≡ held (value_from before bytes.now) }
{
    bytes.iter().try_fold(before, |n, b| with_digit(n, *b))
}
