// The planning unit's calls. A call that changes the unit is lent it. Each settles every input by itself: its contract is
// an equality with the rules, refusals included, and has no `requires`.
// The calls are functions over the state that is lent, not methods: so the rules state them, and Unit is a record of theirs.
// The layers above (office, station, desk, panel) have them alike. A load or an edit answers 0: the rules answer a value to
// every call, and a list of calls has answers of one type.
#![tactic(auto)]

ghost use Rattle.std.specs.Prelude.{◌≡◌};
ghost use Rattle.rules.specs.Answers.{answer_in};
ghost use Rattle.rules.specs.Calls.{fresh_unit, unit_with, load_of, alter_of, choose_of, export_of, page_of, show_of, why_of};
ghost use Rattle.rules.specs.Demands.{EveryAnswer, EveryPoints, TheRules, EveryFile, OneClaim};
ghost use Rattle.theorems.specs.BlockPlans.{EveryBlockPlan};
ghost use Rattle.theorems.specs.Columns.{EveryPage};
ghost use Rattle.theorems.specs.GoodBudget.{GoodBudget, NoneGreater};
ghost use Rattle.theorems.specs.Reasons.{EveryReason, OneHolds};
ghost use Rattle.theorems.specs.Scale.{RatingsOnScale};
ghost use Rattle.unit.specs.Loaded.{reply_in, planned_unit};

use rating::Ranged;
use rules::{Answer, Choice, District, Edit, Programme, Reason, Refusal, Unit};

// A unit that holds the district and the choice of blocks, with programme and ceiling worked out afresh.
#[tactic(auto, unfolding(rules::specs::Calls::unit_with))]
pub fn hold(district: District, choice: Choice) -> Unit
    ensures { result ≡ unit_with choice district }
{
    let programme = planner::plan(&district, &choice);
    Unit {
        district,
        choice,
        programme,
    }
}

// The same of a unit whose district or choice was changed.
#[tactic(auto, unfolding(rules::specs::Calls::unit_with))]
fn plan_anew(u: &mut Unit)
    ensures { u.new ≡ unit_with u.old.choice u.old.district }
{
    u.programme = planner::plan(&u.district, &u.choice);
}

// The unit before the first call. The demands are stated of every call, every file and every list of calls on it. No Default:
// its contract is one predicate of the value, and these promises have names, and most are of every call.
pub fn fresh() -> Unit
    ensures start { result ≡ fresh_unit }
    ensures settled { EveryAnswer }
    ensures points { EveryPoints }
    ensures exact { TheRules }
    ensures files { EveryFile }
    ensures claim { OneClaim }
    ensures scale { RatingsOnScale }
    ensures readable { EveryPage }
    ensures reasons { EveryReason }
    ensures explained { OneHolds }
    ensures equal { GoodBudget }
    ensures optimal { NoneGreater }
    ensures blocks { EveryBlockPlan }
{
    hold(edits::fresh_district(), blocks::no_blocks())
}

// The district of the file in place of the one held, with no blocks chosen.
pub fn load(u: &mut Unit, bytes: &[u8]) -> Answer
    ensures { record { answer = answer_in result; unit = u.new } ≡ load_of u.old bytes.now }
{
    *u = hold(file::load(bytes)?, blocks::no_blocks());
    Ok(0)
}

// What a fresh unit makes of a file.
pub fn of_file(bytes: &[u8]) -> Result<Unit, Refusal>
    ensures { reply_in result ≡ load_of fresh_unit bytes.now }
{
    Ok(hold(file::load(bytes)?, blocks::no_blocks()))
}

// The programme of that unit alone, for a caller who needs no unit: its district is left in the one that is lent, where nothing is
// copied, and its ranges are tested by the reading alone. After a refusal, what is lent is no district.
#[tactic(auto, using(grammar::proofs::InRanges::in_ranges))]
pub fn plan_file(bytes: &[u8], d: &mut District) -> Result<Programme, Refusal>
    ensures { reply_in (planned_unit result d.new) ≡ load_of fresh_unit bytes.now }
{
    file::read(bytes, d)?;
    Ok(planner::programme_of(Ranged { district: d }))
}

// Bar, unbar, set limit, set rating and set leader. The blocks chosen stay, whether they can be followed then or not.
pub fn alter(u: &mut Unit, e: Edit) -> Answer
    ensures { record { answer = answer_in result; unit = u.new } ≡ alter_of u.old e }
{
    edits::check(&u.district, e)?;
    edits::edit(&mut u.district, e);
    plan_anew(u);
    Ok(0)
}

// Blocks for the district held, by a row of numbers, until the next load. No row is refused.
#[tactic(auto, using(crate::proofs::Settled::accepted), unfolding(rules::specs::Calls::choose_of))]
pub fn choose(u: &mut Unit, row: &[usize]) -> Answer
    ensures { record { answer = answer_in result; unit = u.new } ≡ choose_of u.old row.now }
{
    u.choice = blocks::choice_of(row);
    plan_anew(u);
    Ok(0)
}

// The file of the district held, written to the front of the buffer.
#[tactic(auto, unfolding(rules::specs::Calls::export_of))]
pub fn export(u: &Unit, buffer: &mut [u8]) -> Answer
    ensures { record { answer = answer_in result; buffer = buffer.new } ≡ export_of u.now buffer.old }
{
    file::export(&u.district, buffer)
}

// The page of the district and the programme held, written to the front of the buffer.
#[tactic(auto, unfolding(rules::specs::Calls::page_of))]
pub fn page(u: &Unit, buffer: &mut [u8]) -> Answer
    ensures { record { answer = answer_in result; buffer = buffer.new } ≡ page_of u.now buffer.old }
{
    pages::page(&u.district, &u.programme, buffer)
}

// The programme held, with totals, ceiling and counts.
#[tactic(auto, unfolding(rules::specs::Calls::show_of))]
pub fn show(u: &Unit) -> Programme
    ensures { result ≡ show_of u.now }
{
    u.programme
}

// Why a segment has, or has not, a strategy.
#[tactic(auto, unfolding(rules::specs::Calls::why_of))]
pub fn why(u: &Unit, segment: usize, strategy: usize) -> Result<Reason, Refusal>
    ensures { answer_in result ≡ why_of u.now segment strategy }
{
    reasons::why(&u.district, &u.programme.strategies, segment, strategy)
}
