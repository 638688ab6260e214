// The ceiling: the search for prices, with each candidate's cost kept from trial to trial.
#![tactic(auto)]

ghost use Rattle.std.specs.Prelude.{◌≡◌, ◌+◌, ◌*◌, ◌-◌, ◌≤◌, ◌<◌, ◌^◌, min};
ghost use Rattle.base.specs.Choice.{pick};
ghost use Rattle.base.specs.Over.{sum};
ghost use Rattle.rules.specs.Table.{Table};
ghost use Rattle.rules.specs.Ceiling.{price_at, margin, ceiling_at, lowers, priced, priced_all, ceiling};
ghost use Rattle.ceiling.specs.Prices.{Priced, Sized, Prices, Headroom, Standing};
ghost use Rattle.ceiling.specs.Views.{priced_in, repriced};

use candidates::{Candidates, NewPrice, moved};
use rules::places::MOST_RESOURCES;
use tables::{ENTRIES, Size, USE_ENTRIES, entry};

mod candidates;

// The search stands at prices: what each candidate costs at them, and the ceiling. The costs stand in an array beside the
// table, whose own are lent to be read alone, and in the places of its benefits, so that one number finds a candidate in
// each.
#[derive(Drop)]
struct Search<'a> {
    table: Candidates<'a>,
    prices: [u64; MOST_RESOURCES],
    costs: [u64; ENTRIES],
    ceiling: u64,
    ghost fit: { Prices prices },
    ghost standing: { Standing table.size table.benefits.now table.downs.now prices costs ceiling },
}

impl Search<'_> {
    // The whole limits at their prices.
    fn whole(&self) -> u64
        ensures { result ≡ 10_000 * sum self.now.table.size.resources (price_at self.now.prices) }
    {
        10_000 * self.prices[..self.table.size.resources].iter().sum::<u64>()
    }

    // The margin of segment i at the new price. A strategy whose benefit is no more than what the best so far leaves is passed
    // over, and so is one that is no candidate. A loop over numbers: a zip would cut the segment's part out of three arrays,
    // and 16 times as much of the shares. As a `fold` from 0 on, of the same speed, it was tried: its closure has this body and
    // would state beside it what it takes and what it gives, for without that nothing is known of its answer.
    fn margin(&self, new: NewPrice, i: usize) -> u64
        requires le_r { new.resource ≤ self.now.table.size.resources }
        requires le_i { (1 ≤ i) × (i ≤ self.now.table.size.segments) }
        ensures { result ≡ margin (priced_in self.now.table) (repriced self.now.prices new) i }
    {
        let mut best: u64 = 0;
        for j in 0..self.table.size.strategies {
            let at = entry(i, j + 1);
            let benefit = self.table.benefits[at];
            if best < benefit {
                let cost = self
                    .table
                    .cost_at(&self.prices, self.costs[at], new, i, j + 1);
                best = best.max(benefit.saturating_sub(cost));
            }
        }
        best
    }

    // The ceiling at the new price, or the present one where that is lower: the sum ends where it reaches it. A loop:
    // `try_fold(total, |total, i| (total < ceiling).then(|| total + margin))` gives an Option, to be taken apart behind.
    fn trial(&self, new: NewPrice) -> u64
        requires { new.resource ≤ self.now.table.size.resources }
        ensures { result ≡ min (ceiling_at (priced_in self.now.table) (repriced self.now.prices new)) self.now.ceiling }
    {
        let old = self.prices[new.resource - 1];
        let mut total = moved(self.whole(), 10_000, old, new.price);
        for i in 0..self.table.size.segments {
            if self.ceiling <= total {
                return self.ceiling;
            }
            total += self.margin(new, i + 1);
        }
        total.min(self.ceiling)
    }

    // The new price is taken where the ceiling is lower at it.
    fn try_price(&mut self, new: NewPrice) -> bool
        requires { new.resource ≤ self.old.table.size.resources }
        ensures same_table { self.new.table ≡ self.old.table }
        ensures value { result ≡ lowers (priced_in self.old.table) self.old.prices (repriced self.old.prices new) }
        ensures prices_after { self.new.prices ≡ pick result (repriced self.old.prices new) self.old.prices }
    {
        let ceiling = self.trial(new);
        if self.ceiling <= ceiling {
            return false;
        }
        self.table.reprice(&self.prices, &mut self.costs, new);
        self.prices[new.resource - 1] = new.price;
        self.ceiling = ceiling;
        true
    }

    // Resource r at a step of the search: up, else down, else as it was.
    fn price_one(&mut self, step: u64, r: usize)
        requires le_r { (1 ≤ r) × (r ≤ self.old.table.size.resources) }
        requires room { price_at self.old.prices r + step < 2 ^ 41 }
        ensures same_table { self.new.table ≡ self.old.table }
        ensures prices_after { self.new.prices ≡ priced (priced_in self.old.table) step self.old.prices r }
    {
        let old = self.prices[r - 1];
        let raised = NewPrice {
            resource: r,
            price: old + step,
        };
        if self.try_price(raised) {
            return;
        }
        let Some(price) = old.checked_sub(step) else {
            return;
        };
        self.try_price(NewPrice { resource: r, price });
    }

    // A round of the search: each resource in order, from the prices that the one before it left. A loop: of what a
    // `for_each` changes in its closure, here the search, a proof knows nothing.
    fn price_all(&mut self, step: u64)
        requires { Headroom step self.old.prices }
        ensures same_table { self.new.table ≡ self.old.table }
        ensures prices_after { self.new.prices ≡ priced_all (priced_in self.old.table) step self.old.table.size.resources self.old.prices }
    {
        for r in 0..self.table.size.resources {
            self.price_one(step, r + 1);
        }
    }
}

// The ceiling of every table with these benefits and down-shares. Each round of the search goes on from the one before it: a
// loop, as a round is.
pub fn ceiling_of(z: Size, benefits: &[u64; ENTRIES], downs: &[u64; USE_ENTRIES]) -> u64
    requires { Sized z benefits.now downs.now }
    ensures { (t : Table) → Priced t z benefits.now downs.now → result ≡ ceiling t }
{
    let table = Candidates {
        size: z,
        benefits,
        downs,
    };
    let mut search = Search {
        table,
        prices: [0u64; MOST_RESOURCES],
        costs: [0u64; ENTRIES],
        ceiling: table.free_ceiling(),
    };
    for k in (0..41).rev() {
        search.price_all(2u64.pow(k));
    }
    search.ceiling
}
