// Rows of a table: what stands for one segment, or for one strategy on one segment.
ghost use Rattle.std.specs.Prelude.{◌≡◌, ℕ, ◌-◌, ◌≤◌, get_or, length};
ghost use Rattle.base.specs.Over.{most};
ghost use Rattle.rules.specs.District.{most_resources};
ghost use Rattle.tables.specs.Arrays.{entry, entry_at, use_entry, Cell};
ghost use Rattle.tables.specs.Moves.{Shiftable, Shifted};

use crate::{COLUMNS, ENTRIES, USE_ENTRIES};
use rules::places::MOST_RESOURCES;

// Where the entry of strategy j on segment i stands.
pub fn entry(i: usize, j: usize) -> usize
    requires { Cell i j }
    ensures { result ≡ entry i j }
{
    COLUMNS * (i - 1) + j
}

// Where its use of resource r stands.
pub fn use_entry(i: usize, j: usize, r: usize) -> usize
    requires { Cell i j × (1 ≤ r) × (r ≤ most_resources) }
    ensures { result ≡ use_entry i j r }
{
    MOST_RESOURCES * entry(i, j) + (r - 1)
}

// Of an array with an entry for each strategy on each segment, the greatest on segment i, nothing left out; 0 without
// strategies.
pub fn greatest(table: &[u64; ENTRIES], strategies: usize, i: usize) -> u64
    requires { Cell i strategies }
    ensures { result ≡ most strategies (entry_at table.now i) }
{
    let from = entry(i, 1);
    table[from..from + strategies]
        .iter()
        .copied()
        .max()
        .unwrap_or(0)
}

// Of an array with a number of each resource for each strategy on each segment, those of strategy j on segment i.
pub fn row_of(table: &[u64; USE_ENTRIES], i: usize, j: usize) -> &[u64; MOST_RESOURCES]
    requires { Cell i j }
    ensures { (r : ℕ) → 1 ≤ r → r ≤ most_resources → get_or result.now (r - 1) 0 ≡ get_or table.now (use_entry i j r) 0 }
{
    let (rows, _) = table.as_chunks();
    &rows[entry(i, j)]
}

// Each sum loses what `less` has in its place, and gains what `more` has. By the place: a zip of three hands out
// `((sum, less), more)`, and its proof would go by what three iterators have left.
pub fn shift(sums: &mut [u64], less: &[u64], more: &[u64])
    requires { Shiftable sums.old less.now more.now }
    ensures { Shifted sums.old less.now more.now sums.new }
{
    for (k, sum) in sums.iter_mut().enumerate() {
        *sum = *sum - less[k] + more[k];
    }
}
