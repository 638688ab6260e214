// Whole numbers of up to four bytes, low byte first.
ghost use Rattle.std.specs.Prelude.{◌++◌, ◌≡◌, ◌+◌, ◌≤◌, length, drop};
ghost use Rattle.base.specs.Bytes.{bytes_of, number_of};

// The number that so many bytes say. Not by `from_le_bytes`: it takes eight, which would have to be filled first.
pub fn number(bytes: &[u8]) -> usize
    requires { length bytes.now ≤ 4 }
    ensures { result ≡ number_of bytes.now }
{
    bytes.iter().rev().fold(0, |n, b| n * 256 + usize::from(*b))
}

// The low `width` bytes of `value` go to the front of `out`.
pub fn put(out: &mut [u8], width: usize, value: usize)
    requires { width ≤ length out.old }
    ensures { out.new ≡ bytes_of width value ++ drop width out.old }
{
    // `to_le_bytes` has eight bytes, and would ask that the width is no more. A loop, which hands the rest on.
    let mut rest = value;
    for byte in out[..width].iter_mut() {
        *byte = (rest % 256) as u8;
        rest /= 256;
    }
}
