// An office: its planning unit and, beside it, the window of its roughness meter. Neither sees what is asked of the
// other. Calls are functions over the office, and one without a value answers 0, as in unit.
#![tactic(auto)]

ghost use Rattle.std.specs.Prelude.{◌≡◌};
ghost use Rattle.rules.specs.Answers.{answer_in};
ghost use Rattle.rules.specs.Demands.{EveryOfficeAnswer, EveryRoughness, EveryOffice};
ghost use Rattle.rules.specs.Lists.{Alter, ChooseBlocks};
ghost use Rattle.rules.specs.Meter.{roughness_of};
ghost use Rattle.rules.specs.Offices.{Held, fresh_held};
ghost use Rattle.office.specs.Kept.{Keeps, Plans, Sends, reply};

use meter::Window;
use rules::{Answer, Edit, Refusal, Roughness, Sent, Unit};

#[derive(Clone, Copy)]
pub struct Office {
    pub unit: Unit,
    pub window: Window,
}

// The office before the first call. The demands are stated of every call and every list of calls on it. No Default, as unit's.
pub fn fresh() -> Office
    ensures start { Keeps result fresh_held }
    ensures settled { EveryOfficeAnswer }
    ensures points { EveryRoughness }
    ensures claim { EveryOffice }
{
    Office {
        unit: unit::fresh(),
        window: meter::start(),
    }
}

// An edit of the unit's district; the window stays. This and choose are the calls of the unit that change an office here: the
// loads are the station's, and their contract keeps both windows too (station/specs/Kept, PlansBoth).
pub fn alter(o: &mut Office, e: Edit) -> Answer
    ensures { Plans o.old (Alter e) (reply result o.new) }
{
    unit::alter(&mut o.unit, e)
}

// Blocks for the unit's district, by a row of numbers; the window stays.
pub fn choose(o: &mut Office, row: &[usize]) -> Answer
    ensures { Plans o.old (ChooseBlocks row.now) (reply result o.new) }
{
    unit::choose(&mut o.unit, row)
}

// A record of the meter is handed on; the unit stays.
#[tactic(auto, unfolding(rules::specs::Offices::office_outcome))]
pub fn send(o: &mut Office, s: Sent) -> Answer
    ensures { Sends o.old s (reply result o.new) }
{
    meter::hear(&mut o.window, s)
}

// The points for the window, and the last marker's bits.
pub fn roughness(o: &Office) -> Result<Roughness, Refusal>
    ensures { (h : Held) → Keeps o.now h → answer_in result ≡ roughness_of h.heard }
{
    meter::roughness(&o.window)
}
