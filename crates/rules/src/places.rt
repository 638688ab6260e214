// Where each number of a district stands (specs/District.antt), and how many there may be of each thing.

pub const MOST_SEGMENTS: usize = 64;

pub const MOST_STRATEGIES: usize = 11;

pub const MOST_YEARS: usize = 10;

pub const MOST_DISTRESSES: usize = 9;

pub const MOST_PAVEMENTS: usize = 4;

pub const MOST_RESOURCES: usize = 16;

pub const MOST_BLOCKS: usize = 4;

// The numbers of a choice of that many blocks: of each the first and the last segment and a part of every limit.
pub const CHOICE_PLACES: usize = MOST_BLOCKS * (2 + MOST_RESOURCES);

// The six counts.
pub const SEGMENT_COUNT: usize = 0;

pub const STRATEGY_COUNT: usize = 1;

pub const YEAR_COUNT: usize = 2;

pub const DISTRESS_COUNT: usize = 3;

pub const PAVEMENT_COUNT: usize = 4;

pub const RESOURCE_COUNT: usize = 5;

pub const COUNT_PLACES: usize = 6;

// A row for each distress type with a place for each year.
pub const ROWS_PLACES: usize = MOST_YEARS * MOST_DISTRESSES;

// In a strategy: the requirements, the gains, rows of percents.
pub const GAINS: usize = MOST_RESOURCES;

pub const PERCENTS: usize = GAINS + MOST_DISTRESSES;

pub const PER_STRATEGY: usize = PERCENTS + ROWS_PLACES;

// In a pavement type: the overall requirement, rows of minimum ratings.
pub const MINIMA: usize = 1;

pub const PER_PAVEMENT: usize = MINIMA + ROWS_PLACES;

// In a segment: the pavement type, then these.
pub const TRAFFIC: usize = 1;

pub const ENVIRONMENT: usize = 2;

pub const LENGTH: usize = 3;

pub const WIDTH: usize = 4;

pub const BARS: usize = 5;

pub const RATINGS: usize = 6;

pub const LEADER: usize = RATINGS + MOST_DISTRESSES;

pub const PER_SEGMENT: usize = LEADER + 1;

// After the counts, a run for each kind, which begins where the one before it ends.
pub const LIMITS: usize = COUNT_PLACES;

pub const GREATEST: usize = LIMITS + MOST_RESOURCES;

pub const STRATEGIES: usize = GREATEST + MOST_DISTRESSES;

pub const PAVEMENTS: usize = STRATEGIES + PER_STRATEGY * MOST_STRATEGIES;

pub const SEGMENTS: usize = PAVEMENTS + PER_PAVEMENT * MOST_PAVEMENTS;

pub const DISTRICT_PLACES: usize = SEGMENTS + PER_SEGMENT * MOST_SEGMENTS;
