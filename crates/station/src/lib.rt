// A station: two offices on one unit, which share tables. Every call names its office by number and settles every number
// by itself; one office's call leaves the other's part as it is, but for a load that changes the shared tables. Calls are
// functions over the station, and one without a value answers 0, as in unit.
#![tactic(auto)]

ghost use Rattle.std.specs.Prelude.{List, [], ◌≡◌, ℕ};
ghost use Rattle.std.specs.Borrow.{sem};
ghost use Rattle.rules.specs.Answers.{answer_in};
ghost use Rattle.rules.specs.Calls.{load_refusal, district_in, unit_with};
ghost use Rattle.rules.specs.District.{shared_tables};
ghost use Rattle.rules.specs.Lists.{Load, Alter, ChooseBlocks, ExportTo, PageTo, Show, AskWhy};
ghost use Rattle.rules.specs.Offices.{Held, AskRoughness};
ghost use Rattle.rules.specs.StationDemands.{EveryStationAnswer, EveryStationFile, EveryStation, TablesAgree, LeavingOut};
ghost use Rattle.rules.specs.Stations.{Both, other, office_number, office_of, fresh_both, call_of};
ghost use Rattle.rules.specs.declared.Which.{Which};
ghost use Rattle.demands.specs.stations.EachOffice.{EachOffice};
ghost use Rattle.station.specs.Kept.{is_office, office_in, reply, KeepsBoth, RepliesTo, units_in, PlansBoth, Lends, KeepsNamed, SendsBoth};
ghost use Rattle.station.specs.Lending.{LendsOffice};
ghost use Rattle.station.specs.Questions.{shown_for, why_for, roughness_for, without_value};

use office::Office;
use rules::places::SEGMENT_COUNT;
use rules::{Answer, District, Edit, Programme, Reason, Refusal, Roughness, Sent, Unit, Which};

#[derive(Clone, Copy)]
pub struct Station {
    pub first: Office,
    pub second: Office,
}

// The station before the first call. The demands are stated of every call and every list of calls on it, for each office. No
// Default, as unit's.
pub fn fresh() -> Station
    ensures start { KeepsBoth result fresh_both }
    ensures settled { EveryStationAnswer }
    ensures files { EveryStationFile }
    ensures claim { EveryStation }
    ensures tables { TablesAgree }
    ensures alone { LeavingOut }
    ensures each { EachOffice }
{
    let office = office::fresh();
    Station {
        first: office,
        second: office,
    }
}

// The other of the two offices.
fn other(w: Which) -> Which
    ensures { result ≡ other w }
{
    match w {
        Which::First => Which::Second,
        Which::Second => Which::First,
    }
}

// The office of that name. A number is read by Which::try_from, which has the refusal of one that is no office's.
pub fn own(s: &Station, w: Which) -> &Office
    ensures { result.now ≡ office_in w s.now }
{
    match w {
        Which::First => &s.first,
        Which::Second => &s.second,
    }
}

// The same office, lent to a call that changes it.
fn own_mut(s: &mut Station, w: Which) -> &mut Office
    ensures* lends { sem 𝓛 (LendsOffice s.entry w result) }
    ensures value { result.now ≡ office_in w s.old }
{
    match w {
        Which::First => &mut s.first,
        Which::Second => &mut s.second,
    }
}

// Whether an office has the number, for a caller who wants no refusal.
#[tactic(auto, unfolding(crate::specs::Kept::is_office))]
pub fn is_office(n: usize) -> bool
    ensures { result ≡ is_office n }
{
    Which::try_from(n).is_ok()
}

// The office of that number. One that no office has is answered as 2, so that nothing is asked of a number.
pub fn own_of(s: &Station, n: usize) -> &Office
    ensures { (w : Which) → n ≡ office_number w → result.now ≡ office_in w s.now }
{
    match Which::try_from(n) {
        Ok(w) => own(s, w),
        Err(_) => &s.second,
    }
}

// ---- load

// The shared tables of the district in place of a unit's own, and nothing to plan; the blocks chosen stay.
#[tactic(auto, using(demands::proofs::stations::NoSegments::tables_unplanned), unfolding(rules::specs::Calls::unit_with))]
fn take_tables(u: &mut Unit, d: &District)
    ensures { u.new ≡ unit_with u.old.choice (shared_tables d.now) }
{
    u.district = shared::shared_tables(d);
    u.programme = planner::no_programme();
}

// A load whose file passed all its tests, and loads as `d`. Other tables come to the other office too, which must have no
// segments.
fn bring(s: &mut Station, w: Which, d: District) -> Answer
    ensures { (file : List ℕ) → load_refusal file ≡ 0 → district_in file ≡ d → PlansBoth s.old (office_number w) (Load file) (reply result s.new) }
{
    if !shared::same_tables(&own(s, w).unit.district, &d) {
        if own(s, other(w)).unit.district[SEGMENT_COUNT] != 0 {
            return Err(Refusal::TablesInUse);
        }
        take_tables(&mut own_mut(s, other(w)).unit, &d);
    }
    own_mut(s, w).unit = unit::hold(d, blocks::no_blocks());
    Ok(0)
}

pub fn load(s: &mut Station, n: usize, bytes: &[u8]) -> Answer
    ensures { PlansBoth s.old n (Load bytes.now) (reply result s.new) }
{
    let w = Which::try_from(n)?;
    let d = file::load(bytes)?;
    bring(s, w, d)
}

// ---- the other calls

pub fn alter(s: &mut Station, n: usize, e: Edit) -> Answer
    ensures { PlansBoth s.old n (Alter e) (reply result s.new) }
{
    let w = Which::try_from(n)?;
    office::alter(own_mut(s, w), e)
}

// Blocks for the office's district, by a row of numbers, until its next accepted load. No row is refused.
pub fn choose(s: &mut Station, n: usize, row: &[usize]) -> Answer
    ensures { PlansBoth s.old n (ChooseBlocks row.now) (reply result s.new) }
{
    let w = Which::try_from(n)?;
    office::choose(own_mut(s, w), row)
}

// A record of the office's meter is handed on.
pub fn send(s: &mut Station, n: usize, sent: Sent) -> Answer
    ensures { SendsBoth s.old n sent (reply result s.new) }
{
    let w = Which::try_from(n)?;
    office::send(own_mut(s, w), sent)
}

// The file of the office's district, written to the front of the buffer.
pub fn export(s: &Station, n: usize, buffer: &mut [u8]) -> Answer
    ensures { Lends s.now n (ExportTo buffer.old) (answer_in result) buffer.new }
{
    let w = Which::try_from(n)?;
    unit::export(&own(s, w).unit, buffer)
}

// The page of the office's district and programme, written to the front of the buffer.
pub fn page(s: &Station, n: usize, buffer: &mut [u8]) -> Answer
    ensures { Lends s.now n (PageTo buffer.old) (answer_in result) buffer.new }
{
    let w = Which::try_from(n)?;
    unit::page(&own(s, w).unit, buffer)
}

// The programme of the office, with totals, ceiling and counts.
pub fn show(s: &Station, n: usize) -> Result<Programme, Refusal>
    ensures tells { answer_in result ≡ shown_for (office_of n) (units_in s.now) }
    ensures answers { Lends s.now n Show (without_value (answer_in result)) [] }
{
    let w = Which::try_from(n)?;
    Ok(unit::show(&own(s, w).unit))
}

// Why a segment of the office has, or has not, a strategy.
pub fn why(s: &Station, n: usize, segment: usize, strategy: usize) -> Result<Reason, Refusal>
    ensures tells { answer_in result ≡ why_for (office_of n) (units_in s.now) segment strategy }
    ensures answers { Lends s.now n (AskWhy segment strategy) (without_value (answer_in result)) [] }
{
    let w = Which::try_from(n)?;
    unit::why(&own(s, w).unit, segment, strategy)
}

// The points for the office's window, and the last marker's bits.
pub fn roughness(s: &Station, n: usize) -> Result<Roughness, Refusal>
    ensures tells { (b : Both Held) → KeepsNamed s.now n b → answer_in result ≡ roughness_for (office_of n) b }
    ensures answers { RepliesTo s.now (call_of n AskRoughness) (record { answer = without_value (answer_in result); station = s.now }) }
{
    let w = Which::try_from(n)?;
    office::roughness(own(s, w))
}
