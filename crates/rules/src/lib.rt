// The types that the rules speak of. The rules themselves, documents 01 and 02 as definitions, are in specs/.
#![tactic(auto)]

ghost use Rattle.std.specs.Prelude.{◌≡◌};

mod numbered;
pub mod places;
pub mod records;
pub mod refusals;

pub use refusals::Refusal;

// A district: its numbers, each at its place. One flat array, since the file, the ranges and the rules go over the numbers in one
// order; a struct of records would say each number's place twice, in its field and there.
pub type District = [usize; places::DISTRICT_PLACES];

// One number of a record: how many bytes it has, and its range. Where hi < lo it is a signed byte, from lo to 255 and
// from 0 to hi.
#[derive(Clone, Copy)]
pub struct Field {
    pub width: usize,
    pub lo: usize,
    pub hi: usize,
}

// How a number is written on a card: in a whole-number field, in a decimal field, which is read in hundredths, or in a
// decimal field whose value is whole.
#[derive(Clone, Copy)]
pub enum Notation {
    Whole,
    Hundredths,
    Units,
}

// The result of planning: which strategy each of 64 places gets, three sums, and how much work each phase did. Strategy 0 is
// nothing: the rules count strategies from 1 and reckon with 0 as with the others.
#[derive(Clone, Copy)]
pub struct Programme {
    pub strategies: [usize; places::MOST_SEGMENTS],
    pub total: u64,
    pub after_pickups: u64,
    pub ceiling: u64,
    pub steps: u64,
    pub pickups: u64,
    pub changes: u64,
}

// A choice of blocks, a row of numbers: how many were handed in, and as many of them as the most blocks can have, with
// zeros behind the last.
#[derive(Clone, Copy)]
pub struct Choice {
    pub length: usize,
    pub numbers: [usize; places::CHOICE_PLACES],
}

// The planning unit: the district held, the blocks chosen for it, and the programme worked out.
#[derive(Clone, Copy)]
pub struct Unit {
    pub district: District,
    pub choice: Choice,
    pub programme: Programme,
}

// What may be altered of the district held, with the numbers as they are handed in: segment and strategy; segment and
// strategy; resource and limit; segment, distress and rating; segment and leader.
#[derive(Clone, Copy)]
pub enum Edit {
    Bar(usize, usize),
    Unbar(usize, usize),
    SetLimit(usize, usize),
    SetRating(usize, usize, usize),
    SetLeader(usize, usize),
}

// An edit that waits to be carried out, and the number of its office, both as they are handed in.
#[derive(Clone, Copy)]
pub struct Waiting {
    pub office: usize,
    pub edit: Edit,
}

// What stands in a place where no edit waits: its number is no office's. An edit has no default from which it could be derived.
impl Default for Waiting {
    ghost is_default = { λ w. w.office ≡ 0 };

    fn default() -> Waiting {
        Waiting {
            office: 0,
            edit: Edit::Bar(0, 0),
        }
    }
}

// The consoles at which edits arrive.
#[derive(Clone, Copy)]
pub enum Console {
    One = 1,
    Two = 2,
    Three = 3,
    Four = 4,
}

// The two offices on one unit.
#[derive(Clone, Copy)]
pub enum Which {
    First,
    Second,
}

// Why a segment has, or has not, a strategy. A minimum missed names distress and year, a limit passed the resource:
// passed by the strategy alone, or beside what the other segments have.
#[derive(Clone, Copy)]
pub enum Reason {
    InProgramme,
    Barred,
    MinimumMissed(usize, usize),
    OverallMissed,
    NoBenefit,
    LeaderHasNothing,
    OverAlone(usize),
    OverBeside(usize),
    NoGreaterTotal,
}

// A record from the survey van: an index or a mile marker, with the 32 bits of its float, or a lost sample. Index and marker stay
// two variants of one shape: an index is added to the window, a marker empties it, and one variant with a flag would ask for the
// flag at each match.
#[derive(Clone, Copy)]
pub enum Sent {
    Index(u32),
    Marker(u32),
    Lost,
}

// What the call for roughness points returns: the points and the bits of the last marker.
#[derive(Clone, Copy)]
pub struct Roughness {
    pub points: usize,
    pub marker: u32,
}

// What a call returns: a value (0, a length, points), or what refuses it. A call with nothing to tell answers 0, as in the rules,
// so that a list of calls has answers of one type.
pub type Answer = Result<usize, Refusal>;
