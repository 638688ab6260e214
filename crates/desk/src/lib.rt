// A desk: a station, and the queues of four consoles before it. It is lent; an edit arrives at a console, a step carries
// one out, and the station's own calls go on as ever. Calls are functions over the desk, and one without a value answers 0,
// as in unit.
#![tactic(auto)]

ghost use Rattle.rules.specs.DeskDemands.{EveryCall, EveryArrival, EveryStep, OnceInOrder, NobodyStarves, CarriedInTime, EveryRun, EveryDesk};
ghost use Rattle.rules.specs.Desks.{fresh_desk};
ghost use Rattle.rules.specs.Lists.{Load, Alter, ChooseBlocks};
ghost use Rattle.station.specs.Kept.{PlansBoth, SendsBoth};
ghost use Rattle.demands.specs.desks.EachOffice.{EachOfficeServed};
ghost use Rattle.desk.specs.Kept.{KeepsDesk, Arrives, Steps, Asks, reply, stepped};

use queues::Queues;
use rules::{Answer, Console, Edit, Sent, Waiting, Which};
use station::Station;

#[derive(Clone, Copy)]
pub struct Desk {
    pub station: Station,
    pub queues: Queues,
}

// The desk before the first event. What is promised of every call, every arrival, every step and every list of events is
// stated of it. No Default, as unit's.
pub fn fresh() -> Desk
    ensures start { KeepsDesk result fresh_desk }
    ensures calls { EveryCall }
    ensures arrivals { EveryArrival }
    ensures steps { EveryStep }
    ensures order { OnceInOrder }
    ensures served { NobodyStarves }
    ensures time { CarriedInTime }
    ensures runs { EveryRun }
    ensures claim { EveryDesk }
    ensures each { EachOfficeServed }
{
    Desk {
        station: station::fresh(),
        queues: Queues::default(),
    }
}

// An edit, with its office's number, at the console of number `n`.
#[tactic(auto, using(station::proofs::Numbers::naming, crate::proofs::Arrivals::nobody_arrives))]
pub fn arrive(d: &mut Desk, n: usize, w: Waiting) -> Answer
    ensures { Arrives d.old n w (reply result d.new) }
{
    Which::try_from(w.office)?;
    queues::admit_at(&mut d.queues, n, w)
}

// The edit whose turn it is is carried out: its console, and what it is answered. Where none waits, nothing changes.
pub fn step(d: &mut Desk) -> Option<(Console, Answer)>
    ensures { Steps d.old (stepped result d.new) }
{
    let (console, w) = queues::take(&mut d.queues)?;
    Some((console, station::alter(&mut d.station, w.office, w.edit)))
}

// ---- the station's own calls: the queues stay. Those that leave the station as it is are asked of it.

pub fn load(d: &mut Desk, n: usize, bytes: &[u8]) -> Answer
    ensures { Asks d.old (PlansBoth d.old.station n (Load bytes.now)) (reply result d.new) }
{
    station::load(&mut d.station, n, bytes)
}

pub fn alter(d: &mut Desk, n: usize, e: Edit) -> Answer
    ensures { Asks d.old (PlansBoth d.old.station n (Alter e)) (reply result d.new) }
{
    station::alter(&mut d.station, n, e)
}

pub fn choose(d: &mut Desk, n: usize, row: &[usize]) -> Answer
    ensures { Asks d.old (PlansBoth d.old.station n (ChooseBlocks row.now)) (reply result d.new) }
{
    station::choose(&mut d.station, n, row)
}

pub fn send(d: &mut Desk, n: usize, sent: Sent) -> Answer
    ensures { Asks d.old (SendsBoth d.old.station n sent) (reply result d.new) }
{
    station::send(&mut d.station, n, sent)
}
