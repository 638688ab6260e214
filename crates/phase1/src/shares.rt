// The shares of a table, in ten-thousandths of the limits: an array with the places of uses.
ghost use Rattle.std.specs.Prelude.{◌≡◌, ℕ, ◌+◌, ◌-◌, ◌^◌, ◌<◌, ◌≤◌, get_or};
ghost use Rattle.rules.specs.District.{most_resources};
ghost use Rattle.tables.specs.Arrays.{Cell};
ghost use Rattle.phase1.specs.Reduce.{share_at};

use rules::places::MOST_RESOURCES;
use tables::{Move, USE_ENTRIES, row_of, shift};

// The shares with the sums of a programme's, one for each resource.
#[derive(Drop)]
pub(crate) struct Summed<'a> {
    pub(crate) shares: &'a [u64; USE_ENTRIES],
    pub(crate) sums: [u64; MOST_RESOURCES],
}

impl Summed<'_> {
    // The sums go along where a segment that has strategy x makes the move.
    pub(crate) fn give(&mut self, resources: usize, x: usize, m: Move)
        requires cells { (resources ≤ most_resources) × Cell m.0 x × Cell m.0 m.1 }
        requires moves { (r : ℕ) → 1 ≤ r → r ≤ resources → (share_at self.old.shares.now m.0 x r ≤ get_or self.old.sums (r - 1) 0) × (get_or self.old.sums (r - 1) 0 + share_at self.old.shares.now m.0 m.1 r < 2 ^ 64) }
        ensures same_shares { self.new.shares ≡ self.old.shares }
        ensures sums { (r : ℕ) → 1 ≤ r → r ≤ resources → get_or self.new.sums (r - 1) 0 + share_at self.old.shares.now m.0 x r ≡ get_or self.old.sums (r - 1) 0 + share_at self.old.shares.now m.0 m.1 r }
    {
        let Move(i, j) = m;
        let less = row_of(self.shares, i, x);
        let more = row_of(self.shares, i, j);
        shift(&mut self.sums[..resources], less, more);
    }
}
