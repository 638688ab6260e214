// Phase 3: changes of one segment or two that raise the total, keep the limits and respect leaders, until none is left.
// That a segment is the table's, or one of the 64, stays a clause of what takes its number: it is a number of a range, and a
// type for it would have to carry the table.
#![tactic(auto)]

ghost use Rattle.std.specs.Prelude.{◌≡◌};
ghost use Rattle.rules.specs.Phases.{change, phase3};
ghost use Rattle.tables.specs.Views.{table_in, leaders_in};
ghost use Rattle.phase3.specs.Improve.{Found, Tops};
ghost use Rattle.phase3.specs.Memory.{Remembers};

mod change;
mod leaders;
mod look;
mod memory;
mod pair;
mod pass;
mod tops;
mod trial;

use change::Change;
use memory::Memory;
use pass::{Pass, slacks_of};
use rules::places::MOST_SEGMENTS;
use tables::Planning;
use tops::tops_of;

// Slacks and excesses have this added, since they may be negative. They are made of limits, sums and uses and compared,
// nothing more, so as naturals they keep the tables' numbers: an i64 would need a conversion of each, with its bound, and
// the integers in the definitions. And a number that no slack reaches.
const OFFSET: u64 = 1 << 48;

const UNREACHED: u64 = 1 << 50;

// The first change that counts, in the programme as it stands.
fn next_change(
    planning: &Planning<'_>,
    tops: &[u64; MOST_SEGMENTS],
    memory: &mut Memory,
) -> Option<Change>
    requires tops { Tops planning.now.t.size planning.now.t.benefits.entries.now tops.now }
    requires memory { Remembers (table_in planning.now.t) (leaders_in planning.now.t) memory.old.rows }
    ensures found { let p = planning.now in Found p.t.size p.draft.choice result (change (table_in p.t) (leaders_in p.t) p.draft.choice) }
    ensures memory { Remembers (table_in planning.now.t) (leaders_in planning.now.t) memory.new.rows }
{
    let pass = Pass {
        planning,
        tops,
        slacks: slacks_of(planning),
    };
    pass.first_change(memory)
}

// Makes the first change that counts, and starts anew, until no change counts. Returns how many were made. A loop, as phase 1's
// steps.
pub fn improve(planning: &mut Planning<'_>) -> u64
    ensures same_table { planning.new.t ≡ planning.old.t }
    ensures choice_after { let p = planning.old in planning.new.draft.choice ≡ (phase3 (table_in p.t) (leaders_in p.t) p.draft.choice).last }
    ensures value { let p = planning.old in result ≡ (phase3 (table_in p.t) (leaders_in p.t) p.draft.choice).count }
{
    let tops = tops_of(planning.t);
    let mut memory = Memory::new();
    let mut changes: u64 = 0;
    while let Some(next) = next_change(planning, &tops, &mut memory) {
        next.make(planning);
        changes += 1;
    }
    changes
}
