// The greatest benefit of each segment.
ghost use Rattle.phase3.specs.Improve.{Tops};

use rules::places::MOST_SEGMENTS;
use std::array;
use tables::{TableView, greatest};

pub fn tops_of(t: TableView<'_>) -> [u64; MOST_SEGMENTS]
    ensures { Tops t.entry.size t.entry.benefits.entries.now result }
{
    array::from_fn(|i| greatest(t.benefits.entries, t.size.strategies, i + 1))
}
