// A list of calls, read from bytes and made one after the other from the fresh desk (specs/Script.antt).
#![tactic(auto)]

ghost use Rattle.std.specs.Prelude.{◌≡◌, ◌+◌, ◌<◌, ◌≤◌, min, length, replicate, MatchOption};
ghost use Rattle.pages.specs.Printed.{longest_page};
ghost use Rattle.rules.specs.Answers.{answer_in};
ghost use Rattle.rules.specs.Calls.{show_of};
ghost use Rattle.rules.specs.Demands.{Sound};
ghost use Rattle.rules.specs.File.{longest_file};
ghost use Rattle.rules.specs.Lists.{ChooseBlocks, ExportTo, PageTo, Show, AskWhy};
ghost use Rattle.rules.specs.Offices.{Plan, AskRoughness};
ghost use Rattle.rules.specs.Desks.{Step, Ask, desk_after};
ghost use Rattle.rules.specs.DeskDemands.{desk_district};
ghost use Rattle.rules.specs.Stations.{call_of};
ghost use Rattle.rules.specs.declared.Which.{Which};
ghost use Rattle.station.specs.Kept.{office_in};
ghost use Rattle.desk.specs.Kept.{KeepsDesk, Happens, reply};
ghost use Rattle.script.specs.Script.{number_at, row_in, command_in, body_in, queue_kind, entries_of, events_of, last_answer, last_office};

use arrayvec::ArrayVec;
use command::{Command, Name};
use desk::Desk;
use pages::LONGEST_PAGE;
use rules::records::LONGEST_FILE;
use rules::{Answer, Waiting};

// Kinds whose rows do not say all. A kind is any byte: past the last row it names no command. It is no Option of a name:
// tried, and the last arm of a match over Some(Name::Queue) tells the proof of no other name; let-else and a second match
// would say that arm twice.
const LOAD: u8 = Name::Load as u8;

const QUEUE: u8 = Name::Queue as u8;

const STEP: u8 = Name::Step as u8;

const BLOCKS: u8 = Name::Blocks as u8;

// So many bytes say a call; what follows them is its file, its edit or its row.
const CALL_BYTES: usize = 17;

// A longer row is cut: 65,536 bytes have room for so many numbers behind their call.
const LONGEST_ROW: usize = 16379;

// ---- numbers and kinds of a call

// The number in the four bytes from `at`.
fn number(call: &[u8], at: usize) -> usize
    requires { at + 4 ≤ length call.now }
    ensures { result ≡ number_at at call.now }
{
    file::bytes::number(&call[at..at + 4])
}

// The command of a call, from its kind and its numbers.
#[tactic(auto, unfolding(crate::specs::Script::command_in))]
fn read(call: &[u8]) -> Command
    requires { 17 ≤ length call.now }
    ensures { result ≡ command_in call.now }
{
    let numbers = [number(call, 5), number(call, 9), number(call, 13), 0];
    command::numbered(usize::from(call[0]), numbers)
}

// How many bytes follow the 17 of a call.
#[tactic(auto, unfolding(crate::specs::Script::body_in))]
fn body_of(call: &[u8]) -> usize
    requires { 17 ≤ length call.now }
    ensures { result ≡ body_in call.now }
{
    match call[0] {
        LOAD => number(call, 5),
        QUEUE => CALL_BYTES,
        BLOCKS => 4 * number(call, 5),
        _ => 0,
    }
}

// The row of numbers that stands in the bytes. A loop: each number says where its bytes begin.
fn row(body: &[u8]) -> ArrayVec<usize, LONGEST_ROW>
    ensures { result.items ≡ row_in body.now }
{
    let mut row = ArrayVec::new();
    for n in 0..(body.len() / 4).min(LONGEST_ROW) {
        row.push(number(body, 4 * n));
    }
    row
}

// ---- calls that leave the desk as it is

// An export into `room` zeros. A page differs in a length and a call: over one function that takes both there would still be these
// two, each with its contract.
fn exported(d: &Desk, n: usize, room: usize) -> Answer
    ensures { Happens d.now (Ask (call_of n (Plan (ExportTo (replicate (min room longest_file) 0))))) (reply result d.now) }
{
    let mut buffer = [0; LONGEST_FILE];
    station::export(&d.station, n, &mut buffer[..room.min(LONGEST_FILE)])
}

// A page into `room` zeros.
fn paged(d: &Desk, n: usize, room: usize) -> Answer
    ensures { Happens d.now (Ask (call_of n (Plan (PageTo (replicate (min room longest_page) 0))))) (reply result d.now) }
{
    let mut buffer = [0; LONGEST_PAGE];
    station::page(&d.station, n, &mut buffer[..room.min(LONGEST_PAGE)])
}

// A show, its programme left out.
fn shown(d: &Desk, n: usize) -> Answer
    ensures { Happens d.now (Ask (call_of n (Plan Show))) (reply result d.now) }
{
    station::show(&d.station, n).and(Ok(0))
}

// A why, its reason left out.
fn asked(d: &Desk, n: usize, segment: usize, strategy: usize) -> Answer
    ensures { Happens d.now (Ask (call_of n (Plan (AskWhy segment strategy)))) (reply result d.now) }
{
    station::why(&d.station, n, segment, strategy).and(Ok(0))
}

// The question for roughness points, points and marker left out.
fn rough(d: &Desk, n: usize) -> Answer
    ensures { Happens d.now (Ask (call_of n AskRoughness)) (reply result d.now) }
{
    station::roughness(&d.station, n).and(Ok(0))
}

// ---- calls that may change it

// A step, its console left out; where nothing waits it is accepted.
fn stepped(d: &mut Desk) -> Answer
    ensures { Happens d.old Step (reply result d.new) }
{
    desk::step(d).map_or(Ok(0), |(_, answer)| answer)
}

// Blocks by the row of numbers that stands in the bytes.
fn chosen(d: &mut Desk, n: usize, body: &[u8]) -> Answer
    ensures { Happens d.old (Ask (call_of n (Plan (ChooseBlocks (row_in body.now))))) (reply result d.new) }
{
    let row = row(body);
    desk::choose(d, n, row.as_slice())
}

// ---- one call

#[derive(Clone, Copy)]
struct Call<'a> {
    kind: u8,
    office: usize,
    command: Command,
    // The first of its numbers: an export's or a page's room, a console.
    first: usize,
    // What follows its 17 bytes.
    body: &'a [u8],
    ghost edit_follows: { kind ≡ queue_kind → 17 ≤ length body.now },
}

impl<'a> Call<'a> {
    ghost use Rattle.command.specs.Reading.{edit_in};
    ghost use Rattle.script.specs.Script.{commanded, queued_for, named_by};
    ghost use Rattle.script.specs.Calls.{event_by, IsFirst};

    // The call that stands whole at the front of the bytes, and what follows it.
    fn next(bytes: &'a [u8]) -> Option<(Call<'a>, &'a [u8])>
        ensures { MatchOption result (length bytes.now < 17 + body_in bytes.now) (λ r. IsFirst bytes.now r.0 r.1.now) }
    {
        let (head, behind) = bytes.split_at_checked(CALL_BYTES)?;
        let (body, rest) = behind.split_at_checked(body_of(head))?;
        let call = Call {
            kind: head[0],
            office: number(head, 1),
            command: read(head),
            first: number(head, 5),
            body,
        };
        Some((call, rest))
    }

    // A call of its office; what is none is a show.
    #[tactic(auto, unfolding(crate::specs::Script::commanded))]
    fn ask(&self, d: &mut Desk) -> Answer
        ensures { Happens d.old (Ask (call_of self.now.office (commanded self.now.command self.now.first self.now.body.now))) (reply result d.new) }
    {
        match self.command {
            Command::Load => desk::load(d, self.office, self.body),
            Command::Export => exported(d, self.office, self.first),
            Command::Alter(edit) => desk::alter(d, self.office, edit),
            Command::Page => paged(d, self.office, self.first),
            Command::Why(segment, strategy) => asked(d, self.office, segment, strategy),
            Command::Send(sent) => desk::send(d, self.office, sent),
            Command::Roughness => rough(d, self.office),
            Command::Blocks => chosen(d, self.office, self.body),
            _ => shown(d, self.office),
        }
    }

    // An edit that is to wait at a console; it is read from what follows the call.
    #[tactic(auto, using(command::proofs::Reading::no_edit), unfolding(crate::specs::Script::queued_for))]
    fn queue(&self, d: &mut Desk) -> Answer
        requires { 17 ≤ length self.now.body.now }
        ensures { Happens d.old (queued_for self.now.office self.now.first (edit_in (command_in self.now.body.now))) (reply result d.new) }
    {
        let (office, console) = (self.office, self.first);
        match read(self.body) {
            Command::Alter(edit) => desk::arrive(d, console, Waiting { office, edit }),
            _ => shown(d, office),
        }
    }

    // By its kind.
    #[tactic(auto, using(std::proofs::lemmas::Bool::Decides::nat_tests), unfolding(crate::specs::Script::event_of))]
    fn make(&self, d: &mut Desk) -> Answer
        ensures { Happens d.old (event_by self.now) (reply result d.new) }
    {
        match self.kind {
            QUEUE => self.queue(d),
            STEP => stepped(d),
            _ => self.ask(d),
        }
    }

    // The office that is shown after it. A step names none: its number says which, 1 or else 2.
    #[tactic(auto, using(std::proofs::lemmas::Bool::Decides::nat_tests), unfolding(crate::specs::Script::named_by))]
    fn named(&self) -> usize
        ensures { result ≡ named_by self.now.kind self.now.office }
    {
        match self.kind {
            STEP if self.office != 1 => 2,
            _ => self.office,
        }
    }
}

// ---- a list of calls

// What the last call of a list is answered, the desk after it, and the office that it named.
#[derive(Clone, Copy)]
pub struct Ran {
    pub desk: Desk,
    pub answer: Answer,
    pub office: usize,
}

// What the last of the calls that the bytes stand for is answered, from the fresh desk, and which office it named. What is
// held is sound for each office. A loop: an iterator of the calls would be a type of its own, with its laws, for this one walk.
pub fn run(script: &[u8]) -> Ran
    ensures after { KeepsDesk result.desk (desk_after (events_of (entries_of script.now))) }
    ensures last { answer_in result.answer ≡ last_answer (entries_of script.now) }
    ensures named { result.office ≡ last_office (entries_of script.now) }
    ensures claim { (w : Which) → Sound (desk_district w (events_of (entries_of script.now))) (show_of (office_in w result.desk.station).unit) }
{
    let mut ran = Ran {
        desk: desk::fresh(),
        answer: Ok(0),
        office: 1,
    };
    let mut rest = script;
    while let Some((call, behind)) = Call::next(rest) {
        ran.answer = call.make(&mut ran.desk);
        ran.office = call.named();
        rest = behind;
    }
    ran
}
