// Frames of an input: a length of 4 bytes, low byte first, and that many bytes.
#![tactic(auto)]

ghost use Rattle.std.specs.Prelude.{◌≡◌, ℕ, ◌<◌, ◌≤◌, ◌^◌, List, IfOk, IfErr, IfSome, MatchOption, length, take};
ghost use Rattle.std.specs.Bool.{MatchBool};
ghost use Rattle.std.specs.Io.KnownBytes.{Consumes};
ghost use Rattle.base.specs.Text.{Put};
ghost use Rattle.frames.specs.Frames.{Next, NoNext, NotRead, Answers};

use std::io;
use std::io::{Read, Write};

// No longer frame is read.
pub const LONGEST_FRAME: usize = 65536;

// Whether the space could be filled: where not, the input has ended.
fn fill<R: Read>(input: &mut R, space: &mut [u8]) -> io::Result<bool>
    ensures filled { IfOk result (λ full. MatchBool full (Consumes (R.remaining input.old) (R.remaining input.new) space.new) (IfSome (R.remaining input.old) (λ bytes. length bytes < length space.old))) }
    ensures failed { IfErr result (λ _. (n : ℕ) × (n < length space.old) × Consumes (R.remaining input.old) (R.remaining input.new) (take n space.new)) }
{
    Ok(input::read_full(input, space)? == space.len())
}

// The next frame, which goes to the front of `space`; none where what is left of the input holds no frame, or none that
// fits. Where a read fails, no whole frame was read.
pub fn read<'a, R: Read>(input: &mut R, space: &'a mut [u8]) -> io::Result<Option<&'a [u8]>>
    ensures fits { IfOk result (λ next. IfSome next (λ frame. length frame.now ≤ length space.old)) }
    ensures next { IfOk result (λ next. MatchOption next (NoNext (length space.old) (R.remaining input.old)) (λ frame. Next (length space.old) (R.remaining input.old) (R.remaining input.new) frame.now)) }
    ensures failed { IfErr result (λ _. NotRead (length space.old) (R.remaining input.old) (R.remaining input.new)) }
{
    let mut header = [0u8; 4];
    if !fill(input, &mut header)? {
        return Ok(None);
    }
    let Some(frame) = space.get_mut(..u32::from_le_bytes(header) as usize) else {
        return Ok(None);
    };
    Ok(fill(input, frame)?.then_some(frame))
}

// What `answer` puts to the front of its buffer for each frame of the input goes to the output, until there is no frame, or a
// read fails. The value is that read's error, if one ended the run: the frames before it are answered. An Err is a write's, and
// nothing is said of it, as in `input::answered`. That has the same two lines for an answer; a function of them would need the
// three clauses on `answer` once more.
pub fn answered<const SPACE: usize, R: Read, W: Write, F: Fn(&[u8], &mut [u8]) -> usize>(
    input: &mut R,
    output: &mut W,
    answer: F,
) -> io::Result<Option<io::Error>>
    requires size { SPACE < 2 ^ 63 }
    requires callable { (frame : _) (out : _) → length out.now ≡ SPACE → F.pre answer frame out }
    requires within { (frame : _) (out : _) (n : ℕ) (after : _) → length after.now ≡ SPACE → F.post answer frame out n after → n ≤ SPACE }
    ensures { (print : List ℕ → List ℕ) → ((frame : _) (out : _) (n : ℕ) (after : _) → length out.now ≡ SPACE → F.post answer frame out n after → Put (print frame.now) out.now after.now n) → IfOk result (λ failed. Answers print failed (R.remaining input.old) (R.remaining input.new) (W.contents output.old) (W.contents output.new)) }
{
    let mut space = [0u8; LONGEST_FRAME];
    let mut out = [0u8; SPACE];
    // A proved loop has to end, and nothing says that the input does. Each frame has a byte at least: no input of fewer bytes
    // uses this number up.
    for _ in 0..u64::MAX {
        let frame = match read(input, &mut space) {
            Ok(Some(frame)) => frame,
            Ok(None) => return Ok(None),
            Err(error) => return Ok(Some(error)),
        };
        let length = answer(frame, &mut out);
        output.write_all(&out[..length])?;
    }
    Ok(None)
}
