// Loads and exports files, for a comparison with other decoders. Standard input holds frames, and each frame any bytes.
// For each, standard output gets the refusal's number or 0, and after a 0 the length, in 4 bytes, and the bytes of the
// exported file. A frame that is cut short or longer than 65,536 ends the run, and so does a read that fails.
#![tactic(auto)]

ghost use Rattle.std.specs.Prelude.{◌≡◌, ◌+◌, ◌≤◌, IfOk, length};
ghost use Rattle.base.specs.Text.{Put};
ghost use Rattle.frames.specs.Frames.{Answers};
ghost use Rattle.rules.specs.Answers.{refusal_number};
ghost use Rattle.rules.specs.File.{encode, longest_file};
ghost use Rattle.transcode.specs.Transcoded.{head_of, head_bytes, framed, longest_framed, transcoded};

use rules::records::LONGEST_FILE;
use rules::{District, Refusal};
use std::io;
use std::io::{Read, Write};

// What stands before an exported file.
const HEAD_BYTES: usize = 5;

const LONGEST_FRAMED: usize = HEAD_BYTES + LONGEST_FILE;

fn head(length: usize) -> [u8; HEAD_BYTES]
    ensures { result ≡ head_of length }
{
    let [first, second, third, fourth, ..] = length.to_le_bytes();
    [0, first, second, third, fourth]
}

fn put_framed(out: &mut [u8], file: &[u8]) -> usize
    requires { head_bytes + length file.now ≤ length out.old }
    ensures { Put (framed file.now) out.old out.new result }
{
    let head = head(file.len());
    let at = listing::put(out, &head);
    at + listing::put(&mut out[at..], file)
}

// The export has room, so that it answers with the file's length.
fn put_district(out: &mut [u8], d: &District) -> usize
    requires { (longest_framed ≤ length out.old) × (length (encode d.now) ≤ longest_file) }
    ensures { Put (framed (encode d.now)) out.old out.new result }
{
    let mut file = [0u8; LONGEST_FILE];
    let n = file::export(d, &mut file).unwrap();
    put_framed(out, &file[..n])
}

// A cast, in a function for its contract. `u8::from(refusal)` would want a second From in rules, for this one call, and
// `usize::from(refusal) as u8` a proof that the number fits.
fn byte_of(refusal: Refusal) -> u8
    ensures { result ≡ refusal_number refusal }
{
    refusal as u8
}

// What is answered to a frame, to the front of `out`.
fn answer(frame: &[u8], out: &mut [u8]) -> usize
    requires { longest_framed ≤ length out.old }
    ensures { Put (transcoded frame.now) out.old out.new result }
{
    match file::load(frame) {
        Ok(d) => put_district(out, &d),
        Err(refusal) => listing::put(out, &[byte_of(refusal)]),
    }
}

// What is answered to each frame of the input goes to the output, until a read fails, if one does. One call: its
// own is what a frame is answered, and the room for it.
#[tactic(auto, using(base::proofs::Text::put_within))]
fn run<R: Read, W: Write>(input: &mut R, output: &mut W) -> io::Result<Option<io::Error>>
    ensures { IfOk result (λ failed. Answers transcoded failed (R.remaining input.old) (R.remaining input.new) (W.contents output.old) (W.contents output.new)) }
{
    frames::answered::<LONGEST_FRAMED, _, _, _>(input, output, answer)
}

// A read that fails ends the run as the end of the input does, and its error is dropped.
fn main(rt: HostRuntime) -> io::Result<()> {
    run(&mut rt.stdin(), &mut rt.stdout())?;
    Ok(())
}
