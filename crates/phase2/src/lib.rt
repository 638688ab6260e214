// Phase 2: segments with nothing are picked up, the greatest benefit that fits first, until none fits; none before its leader.
#![tactic(auto)]

ghost use Rattle.std.specs.Prelude.{◌≡◌, ◌&&◌, ◌≤◌, eqb};
ghost use Rattle.rules.specs.District.{most_segments};
ghost use Rattle.rules.specs.Phases.{strategy_at, led, phase2};
ghost use Rattle.tables.specs.Views.{table_in, leaders_in};
ghost use Rattle.phase2.specs.Offers.{offer_at, best_in};

use phase1::best_candidate;
use tables::{Move, Planning};

// What a segment could take, and its benefit.
#[derive(Clone, Copy)]
struct Offer {
    takes: Move,
    benefit: u64,
}

// Segment i has nothing, and may have something. That it is the table's stays a clause, here and in offer_of: it is a number
// of a range, and a type for it would have to carry the table.
fn is_free(planning: &Planning<'_>, i: usize) -> bool
    requires { (1 ≤ i) × (i ≤ most_segments) }
    ensures { let c = planning.now.draft.choice in result ≡ (eqb (strategy_at c i) 0 && led (leaders_in planning.now.t) (strategy_at c) i) }
{
    let choice = &planning.draft.choice;
    choice[i - 1] == 0 && planning.t.leaders.is_led(choice, i)
}

// The best that segment i could take, where it is free.
fn offer_of(planning: &Planning<'_>, i: usize) -> Option<Offer>
    requires { (1 ≤ i) × (i ≤ planning.now.t.size.segments) }
    ensures { result ≡ offer_at (table_in planning.now.t) (leaders_in planning.now.t) planning.now.draft.choice i }
{
    if !is_free(planning, i) {
        return None;
    }
    let t = planning.t;
    let j = best_candidate(t.size, t.benefits, i, |j, _| planning.fits(Move(i, j)));
    if j == 0 {
        return None;
    }
    Some(Offer {
        takes: Move(i, j),
        benefit: t.benefits.at(i, j),
    })
}

// The offer to pick up: of the greatest benefit, and of equals that of the lowest segment, which comes first.
fn best_offer(planning: &Planning<'_>) -> Option<Offer>
    ensures { result ≡ best_in (table_in planning.now.t) (leaders_in planning.now.t) planning.now.draft.choice }
{
    (0..planning.t.size.segments)
        .filter_map(|i| offer_of(planning, i + 1))
        .reduce(|best, o| if best.benefit < o.benefit { o } else { best })
}

// Phase 2. Returns how many segments were picked up. A loop, as phase 1's steps.
pub fn pick_up(planning: &mut Planning<'_>) -> u64
    ensures same_table { planning.new.t ≡ planning.old.t }
    ensures choice_after { planning.new.draft.choice ≡ (phase2 (table_in planning.old.t) (leaders_in planning.old.t) planning.old.draft.choice).last }
    ensures value { result ≡ (phase2 (table_in planning.old.t) (leaders_in planning.old.t) planning.old.draft.choice).count }
{
    let mut picks: u64 = 0;
    while let Some(offer) = best_offer(planning) {
        planning.give(offer.takes);
        picks += 1;
    }
    picks
}
