// What phase 3 remembers of the pairs of segments that it looked at (specs/Memory.antt).
ghost use Rattle.std.specs.Prelude.{◌≡◌, ◌≤◌, ◌<◌, ℕ, None, true, replicate};
ghost use Rattle.rules.specs.District.{most_segments, most_resources};
ghost use Rattle.rules.specs.Table.{Table};
ghost use Rattle.phase3.specs.Memory.{place, row_of, Remembers};
ghost use Rattle.phase3.specs.Views.{holds_still, FoundAt, Kept};

use crate::change::Change;
use crate::pair::Pair;
use rules::places::{MOST_RESOURCES, MOST_SEGMENTS};
use std::array;

// Half of the segments.
pub const HALF: usize = MOST_SEGMENTS / 2;

// A row for two segments: the strategies of theirs for which it holds, and for each resource the least excess for which it
// refused a pair of strategies. UNREACHED stands for no excess: an Option for each would double the memory, which is written
// whole for every district: some 0.3 million instructions more, and a plan of 16 segments would pass its bar, the reference's.
#[derive(Clone, Copy)]
pub struct Row {
    pub holds_for: Option<(usize, usize)>,
    pub excesses: [u64; MOST_RESOURCES],
}

impl Row {
    // The row holds for the pair's strategies, and every slack is below its excess. By number: the zip, which proves too, is
    // `self.excesses[..resources].iter().zip(slacks).all(|(excess, slack)| excess > slack)`.
    fn holds_still(&self, pair: &Pair<'_>) -> bool
        ensures { result ≡ holds_still pair.now self.now }
    {
        let resources = pair.pass.planning.t.size.resources;
        let slacks = &pair.pass.slacks;
        self.holds_for == Some(pair.strategies())
            && (0..resources).all(|r| self.excesses[r] > slacks[r])
    }
}

// A row for each two segments, and how many resources stand before the one that refused last, which is asked first. That the
// rows hold for a pass's table, Kept, stays a clause: as a ghost field it would need the table here, and each clause would say
// instead that it is the pass's.
#[derive(Drop)]
pub struct Memory {
    pub rows: [[Row; MOST_SEGMENTS]; HALF],
    pub asked: usize,
}

// Where the row of segments i and k stands, i below k. Of a square of rows those above the diagonal alone would be used, so
// those of the upper half of segments stand below it, mirrored.
fn place(i: usize, k: usize) -> (usize, usize)
    requires { (1 ≤ i) × (i < k) × (k ≤ most_segments) }
    ensures { result ≡ place i k }
{
    if i <= HALF {
        (i - 1, k - 1)
    } else {
        (MOST_SEGMENTS - i, MOST_SEGMENTS - k)
    }
}

impl Memory {
    // Nothing is remembered: every row holds for none. By from_fn, which makes each line in its place: an array of arrays of one
    // row is made beside and copied.
    pub fn new() -> Memory
        ensures { (t : Table) (leader : ℕ → ℕ) → t.segments ≤ most_segments → Remembers t leader result.rows }
    {
        let unused = |_|
            ensures { result ≡ replicate most_segments (record { holds_for = None; excesses = replicate most_resources 0 }) }
        {
            [Row {
                holds_for: None,
                excesses: [0; MOST_RESOURCES],
            }; MOST_SEGMENTS]
        };
        Memory {
            rows: array::from_fn(unused),
            asked: 0,
        }
    }

    // The pair's row still holds, so none of its changes counts.
    pub fn rules_out(&self, pair: &Pair<'_>) -> bool
        requires { Kept pair.now.pass.now self.now }
        ensures still { let p = pair.now in result ≡ holds_still p (row_of self.now.rows p.i p.k) }
        ensures none { result ≡ true → FoundAt pair.now None }
    {
        let (n, m) = place(pair.i, pair.k);
        self.rows[n][m].holds_still(pair)
    }

    // A look at the pair: the first of its changes that counts, and its row made anew.
    pub fn look(&mut self, pair: &Pair<'_>) -> Option<Change>
        requires { Kept pair.now.pass.now self.old }
        ensures found { FoundAt pair.now result }
        ensures memory { Kept pair.now.pass.now self.new }
    {
        let (n, m) = place(pair.i, pair.k);
        let row = &mut self.rows[n][m];
        pair.look().first_change(row, &mut self.asked)
    }
}
