// What the search reads: the benefits of a table's candidates and their down-shares, each a lent array.
ghost use Rattle.std.specs.Prelude.{◌≡◌, ◌+◌, ◌*◌, ◌-◌, ◌≤◌, ◌<◌, ◌^◌, get_or};
ghost use Rattle.ceiling.specs.Prices.{Sized};

use rules::places::MOST_RESOURCES;
use tables::{ENTRIES, Size, USE_ENTRIES, entry, greatest, use_entry};

#[derive(Clone, Copy)]
pub(crate) struct Candidates<'a> {
    pub(crate) size: Size,
    pub(crate) benefits: &'a [u64; ENTRIES],
    pub(crate) downs: &'a [u64; USE_ENTRIES],
    pub ghost sized: { Sized size benefits.now downs.now },
}

// A new price for a resource. That the resource is the table's stays a clause, and so does that a segment is: a ghost field can
// speak of the fields beside it alone, and the table is another value. With table, prices and new price in one struct margin and
// trial would ask instead that the costs, which are the search's, stand at the struct's prices.
#[derive(Clone, Copy)]
pub(crate) struct NewPrice {
    pub(crate) resource: usize,
    pub(crate) price: u64,
    pub ghost from_one: { 1 ≤ resource },
    pub ghost small: { price < 2 ^ 41 },
}

impl Candidates<'_> {
    ghost use Rattle.rules.specs.Ceiling.{cost, margin, ceiling_at};
    ghost use Rattle.tables.specs.Arrays.{columns, entry};
    ghost use Rattle.ceiling.specs.Prices.{free, In, Costs, Prices};
    ghost use Rattle.ceiling.specs.Views.{priced_in, repriced, CostsAt};

    // What segment i has left where all prices are 0: its greatest benefit.
    #[tactic(auto, using(crate::proofs::Rounds::free_margin_is))]
    fn free_margin(self, i: usize) -> u64
        requires { (1 ≤ i) × (i ≤ self.size.segments) }
        ensures { result ≡ margin (priced_in self.entry) free i }
    {
        greatest(self.benefits, self.size.strategies, i)
    }

    // The ceiling where all prices are 0.
    pub(crate) fn free_ceiling(self) -> u64
        ensures { result ≡ ceiling_at (priced_in self.entry) free }
    {
        (0..self.size.segments)
            .map(|i| self.free_margin(i + 1))
            .sum()
    }

    // What strategy j on segment i, a candidate, costs at the new price; `present` at the prices as they stand.
    pub(crate) fn cost_at(
        self,
        prices: &[u64; MOST_RESOURCES],
        present: u64,
        new: NewPrice,
        i: usize,
        j: usize,
    ) -> u64
        requires prices { Prices prices.now × (new.resource ≤ self.size.resources) }
        requires candidate { In self.size i j × (0 < get_or self.benefits.now (entry i j) 0) }
        requires present { present ≡ cost (priced_in self) prices.now i j }
        ensures { result ≡ cost (priced_in self.entry) (repriced prices.now new) i j }
    {
        let r = new.resource;
        let share = self.downs[use_entry(i, j, r)];
        moved(present, share, prices[r - 1], new.price)
    }

    // The costs of segment i's candidates at the new price. A loop over numbers, as in the search's margin: over the segment's part
    // of the costs, zipped with that of the benefits, it would still count j, by which cost_at finds the share.
    fn reprice_segment(
        self,
        prices: &[u64; MOST_RESOURCES],
        costs: &mut [u64; ENTRIES],
        new: NewPrice,
        i: usize,
    )
        requires prices { Prices prices.now × (new.resource ≤ self.size.resources) }
        requires costs { CostsAt self (repriced prices.now new) prices.now (columns * (i - 1)) costs.old }
        requires le_i { (1 ≤ i) × (i ≤ self.size.segments) }
        ensures { CostsAt self.entry (repriced prices.now new) prices.now (columns * i) costs.new }
    {
        for j in 0..self.size.strategies {
            let at = entry(i, j + 1);
            if self.benefits[at] > 0 {
                costs[at] = self.cost_at(prices, costs[at], new, i, j + 1);
            }
        }
    }

    // The same of all segments. A loop, as price_all is: each call changes the costs that the next one is lent.
    pub(crate) fn reprice(
        self,
        prices: &[u64; MOST_RESOURCES],
        costs: &mut [u64; ENTRIES],
        new: NewPrice,
    )
        requires prices { Prices prices.now × (new.resource ≤ self.size.resources) }
        requires costs { CostsAt self prices.now prices.now 0 costs.old }
        ensures { CostsAt self.entry (repriced prices.now new) (repriced prices.now new) 0 costs.new }
    {
        for i in 0..self.size.segments {
            self.reprice_segment(prices, costs, new, i + 1);
        }
    }
}

// What a cost becomes when the price of a resource goes from `old` to `new`.
pub(crate) fn moved(cost: u64, share: u64, old: u64, new: u64) -> u64
    requires { (cost + new * share < 2 ^ 64) × (old * share ≤ cost + new * share) }
    ensures { result ≡ cost + new * share - old * share }
{
    cost + new * share - old * share
}
