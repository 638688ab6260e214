// The records of a file in order, counted from 0 (specs/Format.antt): kinds 1, 2 and 3, then those of the strategies, the
// pavement types and the segments, and the last.
use crate::places::{MOST_PAVEMENTS, MOST_SEGMENTS, MOST_STRATEGIES};

pub const FIRST_STRATEGY: usize = 3;

pub const FIRST_PAVEMENT: usize = FIRST_STRATEGY + MOST_STRATEGIES;

pub const FIRST_SEGMENT: usize = FIRST_PAVEMENT + MOST_PAVEMENTS;

pub const LAST: usize = FIRST_SEGMENT + MOST_SEGMENTS;

pub const RECORDS: usize = LAST + 1;

// How many bytes the longest file has.
pub const LONGEST_FILE: usize = 3852;
