// What is still to be read of a text.
ghost use Rattle.std.specs.Prelude.{◌<◌, ◌+◌, ◌^◌};
ghost use Rattle.texts.specs.Words.{lines_in};

// The bytes that are still to be read, and the number of their first line, from 1. Its method, which reads a line, stands in
// `words`.
#[derive(Clone, Copy)]
pub struct Remaining<'a> {
    pub bytes: &'a [u8],
    pub number: usize,
    pub ghost few: { number + lines_in bytes.now < 2 ^ 64 },
}
