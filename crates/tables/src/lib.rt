// A district's table held in arrays: reads, tests of the limits, and changes of a programme.
#![tactic(auto)]

use rules::places::{MOST_RESOURCES, MOST_SEGMENTS, MOST_STRATEGIES};

pub mod draft;
pub mod lent;
pub mod limits;
pub mod planning;
pub mod resources;
pub mod rows;
pub mod view;

pub use draft::Draft;
pub use lent::{BenefitTable, LeaderList, LimitList, UsageTable};
pub use limits::{budgets, room_in};
pub use planning::Planning;
pub use resources::by_resource;
pub use rows::{entry, greatest, row_of, shift, use_entry};
pub use view::TableView;

// The entries of a segment, one for nothing and one for each strategy; those of all segments; and a use of each
// resource for each.
pub const COLUMNS: usize = MOST_STRATEGIES + 1;

pub const ENTRIES: usize = MOST_SEGMENTS * COLUMNS;

pub const USE_ENTRIES: usize = MOST_RESOURCES * ENTRIES;

// How many segments, strategies and resources there are. That the arrays have places for so many, Bounded, is no ghost
// field: a Size stands for the counts of any district too (size_of in fill/proofs/Tables), and what needs the bound of one count
// asks for no other.
#[derive(Clone, Copy)]
pub struct Size {
    pub segments: usize,
    pub strategies: usize,
    pub resources: usize,
}

// Segment .0 has, or is to have, strategy .1; 0 is nothing, as in the rules.
#[derive(Clone, Copy)]
pub struct Move(pub usize, pub usize);
