// The grammar of a district's file: its records in order, and for each of their numbers how many bytes and what range
// it has. Each function computes the rules' definition of nearly the same name (rules/specs/Format.antt).
#![tactic(auto)]

ghost use Rattle.std.specs.Prelude.{◌≡◌, List, ℕ, ◌<◌, ◌-◌, ◌^◌, min};
ghost use Rattle.base.specs.Choice.{pick};
ghost use Rattle.rules.specs.Format.{file_records, number, absent, inside, slot_of, present, count_field, limit_field, greatest_field, rows_field, strategy_field, pavement_field, rating_field, leader_field, segment_field, kind_field, field_at, Slot as Record};
ghost use Rattle.rules.specs.District.{most_distresses, bars_at, pavements_of};
ghost use Rattle.grammar.specs.Places.{start_of};
ghost use Rattle.grammar.specs.Slots.{form_number, slot_in};

mod kinds;
pub mod numbered;
mod ranges;

pub use kinds::{Form, Kind, Slot};
pub use ranges::in_range;
use rules::{District, Field, places, records};

// The `n`-th record of a file of the form, from 0.
pub fn slot_at(form: Form, n: usize) -> Slot
    ensures { slot_in result ≡ slot_of (form_number form) n }
{
    let (kind, places, nth) = match n {
        0 => (Kind::Counts, places::COUNT_PLACES, 0),
        1 => (Kind::Limits, places::MOST_RESOURCES, 0),
        2 => (Kind::Greatest, places::MOST_DISTRESSES, 0),
        ..records::FIRST_PAVEMENT => (
            Kind::Strategy,
            places::PER_STRATEGY,
            n - records::FIRST_STRATEGY,
        ),
        ..records::FIRST_SEGMENT => (
            Kind::Pavement,
            places::PER_PAVEMENT,
            n - records::FIRST_PAVEMENT,
        ),
        ..records::LAST => (
            Kind::Segment,
            places::PER_SEGMENT,
            n - records::FIRST_SEGMENT,
        ),
        _ => (Kind::End, 0, 0),
    };
    Slot {
        form,
        kind,
        places,
        nth,
    }
}

// Where the numbers of the `n`-th record start. By the number, as its definition goes: by the slot's kind, it would have to be
// shown again which number that is.
pub fn start_of(n: usize) -> usize
    requires { n < file_records }
    ensures { result ≡ start_of n }
{
    match n {
        0 => 0,
        1 => places::LIMITS,
        2 => places::GREATEST,
        ..records::FIRST_PAVEMENT => places::STRATEGIES
            + places::PER_STRATEGY * (n - records::FIRST_STRATEGY),
        ..records::FIRST_SEGMENT => places::PAVEMENTS
            + places::PER_PAVEMENT * (n - records::FIRST_PAVEMENT),
        _ => places::SEGMENTS + places::PER_SEGMENT * (n - records::FIRST_SEGMENT),
    }
}

// Whether the district has the record.
pub fn is_present(d: &District, s: Slot) -> bool
    ensures { result ≡ present d.now (slot_in s) }
{
    match s.kind {
        Kind::Strategy => s.nth < d[places::STRATEGY_COUNT],
        Kind::Pavement => s.nth < d[places::PAVEMENT_COUNT],
        Kind::Segment => s.nth < d[places::SEGMENT_COUNT],
        Kind::Counts | Kind::Limits | Kind::Greatest | Kind::End => true,
    }
}

fn number_of(width: usize, lo: usize, hi: usize) -> Field
    ensures { result ≡ number width lo hi }
{
    Field { width, lo, hi }
}

// A number that the district does not have. It is no Option: as a field of 0 bytes that holds 0 it is read, tested and
// written like any other, and the rules define it so (`absent`); an Option would put a match into each of those.
const ABSENT: Field = Field {
    width: 0,
    lo: 0,
    hi: 0,
};

// The number where the test holds, else one that the district does not have.
fn number_if(test: bool, width: usize, lo: usize, hi: usize) -> Field
    ensures { result ≡ pick test (number width lo hi) absent }
{
    if test {
        number_of(width, lo, hi)
    } else {
        ABSENT
    }
}

// The least and the greatest that each count may be.
const COUNTS: [(usize, usize); places::COUNT_PLACES] = [
    (0, places::MOST_SEGMENTS),
    (1, places::MOST_STRATEGIES),
    (1, places::MOST_YEARS),
    (1, places::MOST_DISTRESSES),
    (1, places::MOST_PAVEMENTS),
    (1, places::MOST_RESOURCES),
];

pub fn count_field(n: usize) -> Field
    ensures { result ≡ count_field n }
{
    match COUNTS.get(n) {
        Some((least, most)) => number_of(1, *least, *most),
        None => number_of(1, 0, 0),
    }
}

pub fn limit_field(d: &District, n: usize) -> Field
    ensures { result ≡ limit_field d.now n }
{
    number_if(n < d[places::RESOURCE_COUNT], 4, 0, 999_999_999)
}

fn greatest_field(d: &District, n: usize) -> Field
    ensures { result ≡ greatest_field d.now n }
{
    number_if(n < d[places::DISTRESS_COUNT], 1, 1, 50)
}

fn rows_field(d: &District, most: usize, n: usize) -> Field
    ensures { result ≡ rows_field d.now most n }
{
    let is_row = n / places::MOST_YEARS < d[places::DISTRESS_COUNT];
    number_if(
        is_row && n % places::MOST_YEARS < d[places::YEAR_COUNT],
        1,
        0,
        most,
    )
}

fn strategy_field(d: &District, n: usize) -> Field
    ensures { result ≡ strategy_field d.now n }
{
    match n {
        ..places::GAINS => number_if(n < d[places::RESOURCE_COUNT], 4, 0, 999_999),
        ..places::PERCENTS => number_if(n - places::GAINS < d[places::DISTRESS_COUNT], 1, 206, 50),
        _ => rows_field(d, 100, n - places::PERCENTS),
    }
}

fn pavement_field(d: &District, n: usize) -> Field
    ensures { result ≡ pavement_field d.now n }
{
    match n {
        0 => number_of(2, 0, 450),
        _ => rows_field(d, 50, n - places::MINIMA),
    }
}

// The largest mask of 16 bits with none from bit `bits` upward.
fn largest_mask(bits: usize) -> usize
    ensures { result ≡ 2 ^ min bits 16 - 1 }
{
    (1usize << bits.min(16)) - 1
}

#[tactic(auto, unfolding(rules::specs::District::greatest_of))]
fn rating_field(d: &District, n: usize) -> Field
    requires { n < most_distresses }
    ensures { result ≡ rating_field d.now n }
{
    number_if(n < d[places::DISTRESS_COUNT], 1, 0, d[places::GREATEST + n])
}

fn leader_field(s: Slot) -> Field
    ensures { result ≡ leader_field (slot_in s) }
{
    number_if(s.form == Form::Leaders, 1, 0, s.nth)
}

// A number of a segment that stands before its bars, where there are so many pavement types.
pub fn road_field(pavements: usize, n: usize) -> Field
    ensures { (d : List ℕ) (s : Record) → pavements_of d ≡ pavements → n < bars_at → result ≡ segment_field d s n }
{
    match n {
        0 => number_of(1, 1, pavements),
        ..places::LENGTH => number_of(2, 100, 1000),
        places::LENGTH => number_of(2, 1, 9999),
        _ => number_of(1, 1, 200),
    }
}

fn segment_field(d: &District, s: Slot, n: usize) -> Field
    ensures { result ≡ segment_field d.now (slot_in s) n }
{
    match n {
        ..places::BARS => road_field(d[places::PAVEMENT_COUNT], n),
        places::BARS => number_of(2, 0, largest_mask(d[places::STRATEGY_COUNT])),
        ..places::LEADER => rating_field(d, n - places::RATINGS),
        _ => leader_field(s),
    }
}

fn kind_field(d: &District, s: Slot, n: usize) -> Field
    ensures { result ≡ kind_field d.now (slot_in s) n }
{
    match s.kind {
        Kind::Counts => count_field(n),
        Kind::Limits => limit_field(d, n),
        Kind::Greatest => greatest_field(d, n),
        Kind::Strategy => strategy_field(d, n),
        Kind::Pavement => pavement_field(d, n),
        Kind::Segment => segment_field(d, s, n),
        Kind::End => ABSENT,
    }
}

// The `n`-th number of the record `s`, from 0.
#[tactic(auto, unfolding(rules::specs::Format::field_at))]
pub fn field_at(d: &District, s: Slot, n: usize) -> Field
    ensures { result ≡ field_at d.now (slot_in s) n }
{
    if is_present(d, s) {
        kind_field(d, s, n)
    } else {
        ABSENT
    }
}

// Whether the field may hold `x`. A signed byte has hi < lo, in the rules' own `Field` (`ranged`). A kind of range beside
// lo and hi would say it twice to each maker of a field: the gain alone is signed.
#[tactic(auto, using(base::proofs::Choice::picks), unfolding(rules::specs::Format::ranged))]
pub fn is_inside(f: Field, x: usize) -> bool
    ensures { result ≡ inside f x }
{
    if f.lo <= f.hi {
        (f.lo..=f.hi).contains(&x)
    } else {
        x <= f.hi || (f.lo..=255).contains(&x)
    }
}
