// Four queues of edits, one for each console, and whose turn it is (rules, specs/Desks.antt). Nothing here knows of districts.
#![tactic(auto)]

ghost use Rattle.std.specs.Prelude.{◌≡◌, ◌+◌, ◌-◌, ◌<◌, [], ◌∷◌, ◌++◌, length, IfNone, IfSome, IfErr, OnOk, OnErr};
ghost use Rattle.rules.specs.Desks.{console_number, console_of, next_to, fresh_queues, most_waiting, taken};
ghost use Rattle.rules.specs.declared.refusals.Refusal.TheVariants.{QueueFull};
ghost use Rattle.queues.specs.Waits.{waiting_in, queues_in, arrival, Admits, taken_in, round_from, waits};

use rules::{Answer, Console, Refusal, Waiting};

pub const MOST_WAITING: usize = 8;

pub const CONSOLES: usize = 4;

// The edits that wait at one console are the first `count`, the oldest at place 0. A count above the places stands for all of
// them, so a bound is asked of no caller. An array and a count: the kit's ArrayVec is no Copy, and with it no queue, no desk and
// no console is one.
#[derive(Clone, Copy)]
pub struct Queue {
    pub places: [Waiting; MOST_WAITING],
    pub count: usize,
}

// The edits of each console.
#[derive(Clone, Copy)]
pub struct Queues {
    pub waiting: [Queue; CONSOLES],
    pub turn: Console,
}

impl Queue {
    fn empty() -> Queue
        ensures { waiting_in result ≡ [] }
    {
        Queue {
            places: [Waiting::default(); MOST_WAITING],
            count: 0,
        }
    }

    fn as_slice(&self) -> &[Waiting]
        ensures { result.now ≡ waiting_in self.now }
    {
        &self.places[..self.count.min(MOST_WAITING)]
    }

    // With an edit more, the last, where a place is free.
    fn try_push(&mut self, w: Waiting) -> Result<(), Refusal>
        ensures pushed { OnOk result (waiting_in self.new ≡ waiting_in self.old ++ (w ∷ [])) }
        ensures room { OnOk result (length (waiting_in self.old) < most_waiting) }
        ensures full { OnErr result (length (waiting_in self.old) ≡ most_waiting) }
        ensures kept { OnErr result (self.new ≡ self.old) }
        ensures refused { IfErr result (λ refusal. refusal ≡ QueueFull) }
    {
        let count = self.as_slice().len();
        if count == MOST_WAITING {
            return Err(Refusal::QueueFull);
        }
        self.places[count] = w;
        self.count = count + 1;
        Ok(())
    }

    // Without the oldest; each of the others moves up a place.
    fn pop(&mut self) -> Option<Waiting>
        ensures oldest { IfSome result (λ w. waiting_in self.old ≡ w ∷ waiting_in self.new) }
        ensures empty { IfNone result (waiting_in self.old ≡ []) }
        ensures kept { IfNone result (self.new ≡ self.old) }
    {
        let waiting = *self.as_slice().first()?;
        self.count = self.as_slice().len() - 1;
        self.places.rotate_left(1);
        Some(waiting)
    }
}

// Before the first arrival; console 1 is first.
#[tactic(auto, unfolding(rules::specs::Desks::fresh_queues))]
impl Default for Queues {
    ghost is_default = { λ q. queues_in q ≡ fresh_queues };

    fn default() -> Queues {
        Queues {
            waiting: [Queue::empty(); CONSOLES],
            turn: Console::One,
        }
    }
}

// The place of a console's queue.
fn place(console: Console) -> usize
    ensures place { result + 1 ≡ console_number console }
    ensures bound { result < 4 }
{
    usize::from(console) - 1
}

// The next in circular order.
fn next_to(console: Console) -> Console
    ensures { result ≡ next_to console }
{
    match console {
        Console::One => Console::Two,
        Console::Two => Console::Three,
        Console::Three => Console::Four,
        Console::Four => Console::One,
    }
}

// The four in that order, from one on.
fn round_from(console: Console) -> [Console; CONSOLES]
    ensures { result ≡ round_from console }
{
    let second = next_to(console);
    let third = next_to(second);
    [console, second, third, next_to(third)]
}

// ---- the calls: functions over the queues that are lent, as the rules state them and the layer above has them (desk), so not
// methods

// An edit arrives at the console of number `n`. Whose edit it is is not looked at. The value is 0 always: a call of the rules
// answers a value, 0 where it has none, and the answers to a list of events are of one type.
pub fn admit_at(q: &mut Queues, n: usize, w: Waiting) -> Answer
    ensures { Admits q.old (console_of n) w (arrival result q.new) }
{
    let console = Console::try_from(n)?;
    let queue = &mut q.waiting[place(console)];
    queue.try_push(w)?;
    Ok(0)
}

// Whether an edit waits at a console.
fn waits(q: &Queues, console: Console) -> bool
    ensures { result ≡ waits (queues_in q.now) console }
{
    !q.waiting[place(console)].as_slice().is_empty()
}

// The oldest edit of the first console that has one, from the turn on; the turn is then the next one's.
pub fn take(q: &mut Queues) -> Option<(Console, Waiting)>
    ensures taken { taken_in result q.new ≡ taken (queues_in q.old) }
    ensures idle { IfNone result (q.new ≡ q.old) }
{
    let order = round_from(q.turn);
    let console = *order.iter().find(|c| waits(q, **c))?;
    let waiting = q.waiting[place(console)].pop()?;
    q.turn = next_to(console);
    Some((console, waiting))
}
