// A console over a desk, two offices on one unit with four queues before them, fresh at its start: each line of standard
// input is a command, answered on standard output. The end of the input ends it. What is done with the console are functions
// over it, as in the layers below (unit).
#![tactic(auto)]

mod output;

ghost use Rattle.std.specs.Prelude.{◌≤◌, ◌≡◌, length};
ghost use Rattle.base.specs.Text.{Put};
ghost use Rattle.listing.specs.Listing.{shown};
ghost use Rattle.pages.specs.Printed.{page_held};
ghost use Rattle.rules.specs.Desks as Desks;
ghost use Rattle.rules.specs.Offices.{Held};
ghost use Rattle.rules.specs.Stations.{Both};
ghost use Rattle.station.specs.Kept.{KeepsBoth};
ghost use Rattle.desk.specs.Kept.{KeepsDesk};
ghost use Rattle.panel.specs.Console.{State, start as Console·start, state_of, printed, said, after, Loads, Exports, LineLeads, after_blocks, said_blocks, KeepsState, turn, UnitNamed, Tells, Turns};
ghost use Rattle.panel.specs.Lines.{kept_bytes, keeping, ByEvents, Answered, Fed};

use arrayvec::ArrayVec;
use command::Command;
use desk::Desk;
use disk::Failure;
use input::MOST_READ;
use output::Output;
use pages::LONGEST_PAGE;
use rules::places::RESOURCE_COUNT;
use rules::records::LONGEST_FILE;
use rules::{Refusal, Unit, Waiting, Which};
use std::io;
use std::io::{Read, Write};
use std::random::RandomSource;
use std::rt::Files;

// Of a line so many bytes are kept: enough to know that it is too long.
const KEPT: usize = command::LONGEST_LINE + 1;

// The byte that ends a line.
const LINE_FEED: u8 = b'\n';

// The desk, and the number of the office that calls name, as it was typed: each call reads it. That events led to the desk stands in the clauses that need it: a
// ghost field has to be a proposition, which a list of events is not (tried). Truncated it would give demand 3 only after a
// proof that demand 3 is one.
#[derive(Clone, Copy)]
pub struct Console {
    pub desk: Desk,
    pub office: usize,
}

// Before the first line. No Default: it would say the same clause and the same body in more lines, for one caller.
fn start() -> Console
    ensures { KeepsState result Console·start }
{
    Console {
        desk: desk::fresh(),
        office: 1,
    }
}

// ---- commands without a file

// The unit of the office that calls name.
#[tactic(auto, using(station::proofs::Numbers::naming), unfolding(crate::specs::Console::UnitNamed))]
fn unit(c: &Console) -> Result<&Unit, Refusal>
    ensures { UnitNamed c.now result }
{
    let w = Which::try_from(c.office)?;
    Ok(&station::own(&c.desk.station, w).unit)
}

// Its programme. Its page below is the same match: of one function that takes the writer listing says what was tried.
fn show(c: &Console, out: &mut [u8; LONGEST_PAGE]) -> usize
    ensures { (b : Both Held) → KeepsBoth c.now.desk.station b → Put (printed shown b c.now.office) out.old out.new result }
{
    match unit(c) {
        Ok(unit) => listing::put_shown(out, unit),
        Err(refusal) => listing::put_refusal(out, refusal),
    }
}

// Its page.
fn page(c: &Console, out: &mut [u8; LONGEST_PAGE]) -> usize
    ensures { (b : Both Held) → KeepsBoth c.now.desk.station b → Put (printed page_held b c.now.office) out.old out.new result }
{
    match unit(c) {
        Ok(unit) => pages::put_page(out, unit),
        Err(refusal) => listing::put_refusal(out, refusal),
    }
}

// Load, export and blocks are answered by respond, which has the line: a type of the commands but for these three would have
// the other twelve once more.
fn obey(c: &mut Console, command: Command, out: &mut [u8; LONGEST_PAGE]) -> usize
    ensures { (h : Desks.Desk) → KeepsDesk c.old.desk h → Tells (after (state_of h c.old.office) command) (said (state_of h c.old.office) command) out.old out.new (turn c.new result) }
{
    match command {
        Command::Alter(e) => listing::put_done(out, desk::alter(&mut c.desk, c.office, e)),
        Command::Send(sent) => listing::put_done(out, desk::send(&mut c.desk, c.office, sent)),
        Command::Queue(m, edit) => {
            let waiting = Waiting {
                office: c.office,
                edit,
            };
            listing::put_done(out, desk::arrive(&mut c.desk, m, waiting))
        }
        Command::Step => listing::put_stepped(out, desk::step(&mut c.desk)),
        Command::Office(m) => {
            c.office = m;
            listing::put(out, b"ok\n")
        }
        Command::Show => show(c, out),
        Command::Page => page(c, out),
        Command::Why(i, j) => {
            listing::put_why(out, station::why(&c.desk.station, c.office, i, j))
        }
        Command::Roughness => {
            listing::put_roughness(out, station::roughness(&c.desk.station, c.office))
        }
        Command::Points(code, degree, extent, seal) => listing::put_valued(
            out,
            b"points ",
            survey::survey_points(code, degree, extent, seal),
        ),
        Command::Unknown => listing::put(out, b"unknown command\n"),
        Command::Nothing => 0,
        Command::Load => 0,
        Command::Export => 0,
        Command::Blocks => 0,
    }
}

// ---- blocks

// The row has a part for each resource. Both offices have the same, so a line is read alike for both, and also where no
// office has the number that calls name.
fn choose(c: &mut Console, line: &[u8], out: &mut [u8; LONGEST_PAGE]) -> usize
    requires { ByEvents c.old }
    ensures { (h : Desks.Desk) → KeepsDesk c.old.desk h → Tells (after_blocks (state_of h c.old.office) line.now) (said_blocks (state_of h c.old.office) line.now) out.old out.new (turn c.new result) }
{
    let parts = station::own(&c.desk.station, Which::First).unit.district[RESOURCE_COUNT];
    match command::row(line, 2 + parts) {
        Some(row) => listing::put_done(out, desk::choose(&mut c.desk, c.office, row.as_slice())),
        None => listing::put(out, b"unknown command\n"),
    }
}

// ---- commands with a file

fn load(rt: &impl Files, c: &mut Console, path: &[u8], out: &mut [u8; LONGEST_PAGE]) -> usize
    requires { length path.now ≤ kept_bytes }
    ensures { (h : Desks.Desk) → KeepsDesk c.old.desk h → Turns (Loads (state_of h c.old.office) path.now) out.old out.new (turn c.new result) }
{
    let mut file = [0u8; MOST_READ];
    match disk::read(rt, path, &mut file) {
        Ok(count) => listing::put_done(out, desk::load(&mut c.desk, c.office, &file[..count])),
        Err(Failure::Open) => listing::put_failed(out, b"cannot open ", path),
        Err(Failure::Read) => listing::put_failed(out, b"cannot read ", path),
    }
}

fn export<H: Files + RandomSource>(
    rt: &H,
    c: &Console,
    path: &[u8],
    out: &mut [u8; LONGEST_PAGE],
) -> usize
    requires { (length path.now ≤ kept_bytes) × ByEvents c.now }
    ensures { (h : Desks.Desk) → KeepsDesk c.now.desk h → Turns (Exports (state_of h c.now.office) path.now) out.old out.new (turn c.now result) }
{
    let mut file = [0u8; LONGEST_FILE];
    let answer = station::export(&c.desk.station, c.office, &mut file);
    if let Ok(n) = answer {
        if disk::save(rt, path, &file[..n]).is_err() {
            return listing::put_failed(out, b"cannot write ", path);
        }
    }
    listing::put_valued(out, b"ok ", answer)
}

// ---- lines

fn respond<H: Files + RandomSource>(
    rt: &H,
    c: &mut Console,
    line: &[u8],
    out: &mut [u8; LONGEST_PAGE],
) -> usize
    requires { (length line.now ≤ kept_bytes) × ByEvents c.old }
    ensures { (s : State) → KeepsState c.old s → Turns (LineLeads s line.now) out.old out.new (turn c.new result) }
{
    match command::parse(line) {
        Command::Load => load(rt, c, command::path(line), out),
        Command::Export => export(rt, c, command::path(line), out),
        Command::Blocks => choose(c, line, out),
        command => obey(c, command, out),
    }
}

// The answer to a line goes to the output. Why the bytes have their number beside them, listing says.
fn answer<H: Files + RandomSource, W: Write>(
    rt: &H,
    output: &mut Output<W>,
    c: &mut Console,
    line: &[u8],
)
    requires { (length line.now ≤ kept_bytes) × ByEvents c.old }
    ensures { Answered c.old line.now c.new }
{
    let mut out = [0u8; LONGEST_PAGE];
    let n = respond(rt, c, line, &mut out);
    output.put(&out[..n]);
}

// A byte goes to the line, unless as many are kept as tell that it is too long.
fn keep(line: &mut ArrayVec<u8, KEPT>, byte: u8)
    ensures { line.new.items ≡ keeping line.old.items byte }
{
    let _ = line.try_push(byte);
}

// What was read goes to the line, and each line that ends is answered.
fn feed<H: Files + RandomSource, W: Write>(
    rt: &H,
    output: &mut Output<W>,
    c: &mut Console,
    line: &mut ArrayVec<u8, KEPT>,
    bytes: &[u8],
)
    requires { ByEvents c.old }
    ensures { Fed c.old line.old.items bytes.now line.new.items c.new }
{
    // A loop: each byte changes the line or the console, and of what a chain's closure changes a proof knows nothing.
    for &byte in bytes {
        if byte == LINE_FEED {
            answer(rt, output, c, line.as_slice());
            line.clear();
        } else {
            keep(line, byte);
        }
    }
}

// Reads the input to its end, or to a read that fails, and answers each line that ends.
fn listen<H: Files + RandomSource, R: Read, W: Write>(
    rt: &H,
    input: &mut R,
    output: &mut Output<W>,
    c: &mut Console,
    line: &mut ArrayVec<u8, KEPT>,
) -> io::Result<()>
    requires { ByEvents c.old }
    ensures { ByEvents c.new }
{
    let mut bytes = [0u8; MOST_READ];
    // A proved loop has to end, and nothing says that the input does: no run uses this number up.
    for _ in 0..u64::MAX {
        match input.read(&mut bytes)? {
            0 => break,
            n => feed(rt, output, c, line, &bytes[..n]),
        }
    }
    Ok(())
}

// Answers each line of the input, and what stands at its end without a line feed. A read that failed is told of at the end.
fn converse<H: Files + RandomSource, R: Read, W: Write>(
    rt: &H,
    input: &mut R,
    output: &mut Output<W>,
) -> io::Result<()> {
    let mut console = start();
    let mut line = ArrayVec::new();
    let ended = listen(rt, input, output, &mut console, &mut line);
    if !line.is_empty() {
        answer(rt, output, &mut console, line.as_slice());
    }
    ended
}

fn main(rt: HostRuntime) -> io::Result<()> {
    let mut output = Output::new(rt.stdout());
    converse(&rt, &mut rt.stdin(), &mut output)?;
    output.close()
}
