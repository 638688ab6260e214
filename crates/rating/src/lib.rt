// Document 01, "Rating and benefit", of a district that is lent, and of one strategy on one of its segments.
#![tactic(auto)]

ghost use Rattle.std.specs.Prelude.{◌≡◌, true, false, MatchOption, ℕ, ℤ, ◌+◌, ◌-◌, ◌*◌, ◌≤◌, ◌<◌, nat_abs};
ghost use Rattle.base.specs.Choice.{pick};
ghost use Rattle.base.specs.Over.{sum, sum_z};
ghost use Rattle.grammar.specs.Ranges.{Ranges};
ghost use Rattle.rules.specs.District.{most_years, per_strategy, per_pavement, per_segment, value_at, limit_place, greatest_place, strategy_place, pavement_place, segment_place, gain_of, pavement_of, years_of, distresses_of, segments_of, resources_of, barred_in};
ghost use Rattle.rules.specs.File.{in_range};
ghost use Rattle.rules.specs.Rating.{gain, survival, both_ends, credits, rating, effect, area, benefit, usage, scaled_limit, reaches, minimum_reached, years_reached, minima_reached, first_rating, overall_reached, permitted, fits_alone, candidate};
ghost use Rattle.rules.specs.Phases.{chosen_usage, used as Phases·used};
ghost use Rattle.rules.specs.Table.{has, candidate_benefit, usage_in, limit_in, table_of};
ghost use Rattle.rating.specs.Areas.{area_in, Treats};
ghost use Rattle.rating.specs.Numbers.{Segment, Strategy, Distress, Year, Pavement, Resource};

use rules::District;
use rules::places::*;
use std::ops::Range;

// Segments, strategies, distress types, years and resources are numbers under a clause of specs/Numbers, and no types: ranges
// count them and places are reckoned from them, so each call would wrap what a range gives, and each reader unwrap it.

// The first number of a pavement type, and of a segment.
const OVERALL: usize = 0;

const PAVEMENT: usize = 0;

// ---- what stands at its places

// A reader for each run, which names it. Its first place and its width are constants of the rules, and a call of one reader for
// all would give both: `at(d, STRATEGIES, PER_STRATEGY, j, n)` in place of `strategy_at(d, j, n)`.

pub fn limit_at(d: &District, r: usize) -> usize
    requires { Resource r }
    ensures { result ≡ value_at d.now (limit_place r) }
{
    d[LIMITS + (r - 1)]
}

fn greatest_at(d: &District, k: usize) -> usize
    requires { Distress k }
    ensures { result ≡ value_at d.now (greatest_place k) }
{
    d[GREATEST + (k - 1)]
}

// ---- the same at a place n of a strategy, of a pavement type and of a segment

fn strategy_at(d: &District, j: usize, n: usize) -> usize
    requires { Strategy j × (n < per_strategy) }
    ensures { result ≡ value_at d.now (strategy_place j + n) }
{
    d[STRATEGIES + PER_STRATEGY * (j - 1) + n]
}

fn pavement_at(d: &District, y: usize, n: usize) -> usize
    requires { Pavement y × (n < per_pavement) }
    ensures { result ≡ value_at d.now (pavement_place y + n) }
{
    d[PAVEMENTS + PER_PAVEMENT * (y - 1) + n]
}

pub fn segment_at(d: &District, i: usize, n: usize) -> usize
    requires { Segment i × (n < per_segment) }
    ensures { result ≡ value_at d.now (segment_place i + n) }
{
    d[SEGMENTS + PER_SEGMENT * (i - 1) + n]
}

// In a row for each distress type with a place for each year.
fn row_place(k: usize, t: usize) -> usize
    requires { Distress k × Year t }
    ensures { result ≡ most_years * (k - 1) + (t - 1) }
{
    MOST_YEARS * (k - 1) + (t - 1)
}

// Bit j − 1 of the segment's bars, by shift and mask.
#[tactic(auto, using(base::proofs::Bits::tested_by_shift), unfolding(rules::specs::District::barred_in, rules::specs::District::bars_of))]
pub fn barred(d: &District, i: usize, j: usize) -> bool
    requires { Segment i × Strategy j }
    ensures { result ≡ barred_in d.now i j }
{
    (segment_at(d, i, BARS) >> (j - 1)) & 1 == 1
}

// Whether the district has segment i and strategy j.
fn has(d: &District, i: usize, j: usize) -> bool
    requires { Segment i }
    ensures { result ≡ has d.now i j }
{
    i <= d[SEGMENT_COUNT] && (1..=d[STRATEGY_COUNT]).contains(&j)
}

// Whether a rating in millionths reaches what is required in whole points.
fn reaches(z: i64, required: usize) -> bool
    requires { required ≤ 450 }
    ensures { result ≡ reaches z required }
{
    required == 0 || (1000000 * required) as i64 <= z
}

// ---- a district in range

// A district whose numbers are in the file's ranges.
#[derive(Clone, Copy)]
pub struct Ranged<'a> {
    pub district: &'a District,
    pub ghost in_range: { Ranges district.now },
}

impl<'a> Ranged<'a> {
    // None of a district whose numbers are not in them. No TryFrom: an error would have nothing to tell.
    #[tactic(auto, using(grammar::proofs::InRanges::in_ranges))]
    pub fn of(d: &'a District) -> Option<Ranged<'a>>
        ensures { MatchOption result (in_range d.now ≡ false) (λ r. (r.district.now ≡ d.now) × (in_range d.now ≡ true)) }
    {
        if !grammar::in_range(d) {
            return None;
        }
        Some(Ranged { district: d })
    }

    // ---- the numbers of what it has, from 1 on. Each range ends at the count and one: with `1..=n` a plan of 16 segments takes 0.2
    // million instructions more, 4.18 for 3.96, and its bar is the reference's 4.16.

    pub fn segments(&self) -> Range<usize>
        ensures { result ≡ record { start = 1; end = segments_of self.now.district.now + 1 } }
    {
        1..self.district[SEGMENT_COUNT] + 1
    }

    pub fn years(&self) -> Range<usize>
        ensures { result ≡ record { start = 1; end = years_of self.now.district.now + 1 } }
    {
        1..self.district[YEAR_COUNT] + 1
    }

    pub fn distresses(&self) -> Range<usize>
        ensures { result ≡ record { start = 1; end = distresses_of self.now.district.now + 1 } }
    {
        1..self.district[DISTRESS_COUNT] + 1
    }

    pub fn resources(&self) -> Range<usize>
        ensures { result ≡ record { start = 1; end = resources_of self.now.district.now + 1 } }
    {
        1..self.district[RESOURCE_COUNT] + 1
    }

    // ---- limits

    #[tactic(auto, unfolding(rules::specs::Rating::scaled_limit, rules::specs::District::limit_of))]
    pub fn scaled_limit(&self, r: usize) -> u64
        requires { Resource r }
        ensures { result ≡ scaled_limit self.now.district.now r }
    {
        (limit_at(self.district, r) as u64) * 100000
    }
}

// ---- one strategy on one segment

// Strategy j on segment i of a district whose numbers are in the file's ranges: the arithmetic rests on that. That the district
// has the segment is a clause where it is needed, and no ghost field, which the others would ask for as well.
#[derive(Clone, Copy)]
pub struct Treatment<'a> {
    pub ranged: Ranged<'a>,
    pub segment: usize,
    pub strategy: usize,
    pub ghost segment_in: { Segment segment },
    pub ghost strategy_in: { Strategy strategy },
}

impl<'a> Treatment<'a> {
    // ---- gain and survival

    // The gain that the strategy has for distress k. Not by a cast to `i8`: the ranges do not say that the number fits a byte.
    fn own_gain(&self, k: usize) -> i64
        requires { Distress k }
        ensures { result ≡ gain_of self.now.ranged.district.now self.now.strategy k }
    {
        let byte = strategy_at(self.ranged.district, self.strategy, GAINS + (k - 1));
        if byte < 128 {
            byte as i64
        } else {
            byte as i64 - 256
        }
    }

    // The same on the segment, cut to what is left up to the greatest rating, and to the loss of the whole current one.
    pub fn gain(&self, k: usize) -> i64
        requires { Distress k }
        ensures { result ≡ gain self.now.ranged.district.now self.now.segment self.now.strategy k }
    {
        let own = self.own_gain(k);
        let current = segment_at(self.ranged.district, self.segment, RATINGS + (k - 1));
        let left = greatest_at(self.ranged.district, k) - current;
        let lowest = -(current as i64);
        own.clamp(lowest, left as i64)
    }

    // What is left of it in year t, in millionths.
    fn survival(&self, k: usize, t: usize) -> usize
        requires { Distress k × Year t }
        ensures { result ≡ survival self.now.ranged.district.now self.now.segment self.now.strategy k t }
    {
        let loss = segment_at(self.ranged.district, self.segment, TRAFFIC)
            * segment_at(self.ranged.district, self.segment, ENVIRONMENT)
            * (100
                - strategy_at(
                    self.ranged.district,
                    self.strategy,
                    PERCENTS + row_place(k, t),
                ));
        1000000usize.saturating_sub(loss)
    }

    // ---- effect, area, benefit

    // What is left of a gain at the start and at the end of each year, summed over the years. All of it is there when
    // year 1 starts. A loop, which hands the end of a year on to the next. A `fold` would carry the same two numbers as a pair,
    // `|(total, start), t| { let end = self.survival(k, t); (total + start + end, end) }`, and take it apart behind. The range is
    // written out: over `years()` the proof did not close.
    fn survivals(&self, k: usize) -> usize
        requires { Distress k }
        ensures { result ≡ sum (years_of self.now.ranged.district.now) (both_ends self.now.ranged.district.now self.now.segment self.now.strategy k) }
    {
        let mut total: usize = 0;
        let mut start: usize = 1000000;
        for t in 1..self.ranged.district[YEAR_COUNT] + 1 {
            let end = self.survival(k, t);
            total += start + end;
            start = end;
        }
        total
    }

    // What the gain is credited with over the years: it is a factor that all years share.
    fn credits(&self, k: usize) -> i64
        requires { Distress k }
        ensures { result ≡ credits self.now.ranged.district.now self.now.segment self.now.strategy k }
    {
        self.gain(k) * (self.survivals(k) as i64)
    }

    // The credits of all distress types, summed.
    fn total_credits(&self) -> i64
        ensures { result ≡ sum_z (distresses_of self.now.ranged.district.now) (credits self.now.ranged.district.now self.now.segment self.now.strategy) }
    {
        self.ranged.distresses().map(|k| self.credits(k)).sum()
    }

    // One division, toward zero, after the whole sum.
    fn effect(&self) -> i64
        ensures { result ≡ effect self.now.ranged.district.now self.now.segment self.now.strategy }
    {
        self.total_credits() / 20000
    }

    #[tactic(auto, unfolding(rules::specs::Rating::area, rules::specs::District::length_of, rules::specs::District::width_of))]
    fn area(&self) -> u64
        ensures { result ≡ area self.now.ranged.district.now self.now.segment }
    {
        let length = segment_at(self.ranged.district, self.segment, LENGTH);
        let width = segment_at(self.ranged.district, self.segment, WIDTH);
        (length * width) as u64
    }

    pub fn benefit(&self) -> i64
        ensures { result ≡ benefit self.now.ranged.district.now self.now.segment self.now.strategy }
    {
        (self.area() as i64) * self.effect()
    }

    // ---- uses

    #[tactic(auto, using(crate::proofs::Bounds::area_le, crate::proofs::Entries::usage_of), unfolding(rules::specs::District::requirement_of))]
    pub fn usage(&self, r: usize) -> u64
        requires { Resource r }
        ensures { result ≡ usage self.now.ranged.district.now self.now.segment self.now.strategy r }
    {
        self.area() * (strategy_at(self.ranged.district, self.strategy, r - 1) as u64)
    }

    // ---- permitted

    // The segment's pavement type.
    fn pavement(&self) -> usize
        requires { self.now.segment ≤ segments_of self.now.ranged.district.now }
        ensures value { result ≡ pavement_of self.now.ranged.district.now self.now.segment }
        ensures there { Pavement result }
    {
        segment_at(self.ranged.district, self.segment, PAVEMENT)
    }

    // The rating in year t, in millionths, g being the gain: it is handed on, since it is found once for all years.
    fn rating(&self, k: usize, t: usize, g: i64) -> i64
        requires { Distress k × Year t × (g ≡ gain self.now.ranged.district.now self.now.segment self.now.strategy k) }
        ensures { result ≡ rating self.now.ranged.district.now self.now.segment self.now.strategy k t }
    {
        let current = segment_at(self.ranged.district, self.segment, RATINGS + (k - 1));
        (1000000 * current) as i64 + g * (self.survival(k, t) as i64)
    }

    pub fn minimum_reached(&self, k: usize, t: usize, g: i64) -> bool
        requires { (self.now.segment ≤ segments_of self.now.ranged.district.now) × Distress k × Year t × (g ≡ gain self.now.ranged.district.now self.now.segment self.now.strategy k) }
        ensures { result ≡ minimum_reached self.now.ranged.district.now self.now.segment self.now.strategy k t }
    {
        let pavement = self.pavement();
        let required = pavement_at(self.ranged.district, pavement, MINIMA + row_place(k, t));
        reaches(self.rating(k, t, g), required)
    }

    fn years_reached(&self, k: usize) -> bool
        requires { (self.now.segment ≤ segments_of self.now.ranged.district.now) × Distress k }
        ensures { result ≡ years_reached self.now.ranged.district.now self.now.segment self.now.strategy k }
    {
        let g = self.gain(k);
        self.ranged.years().all(|t| self.minimum_reached(k, t, g))
    }

    fn minima_reached(&self) -> bool
        requires { self.now.segment ≤ segments_of self.now.ranged.district.now }
        ensures { result ≡ minima_reached self.now.ranged.district.now self.now.segment self.now.strategy }
    {
        self.ranged.distresses().all(|k| self.years_reached(k))
    }

    // The ratings of year 1, summed.
    fn first_ratings(&self) -> i64
        ensures { result ≡ sum_z (distresses_of self.now.ranged.district.now) (first_rating self.now.ranged.district.now self.now.segment self.now.strategy) }
    {
        self.ranged
            .distresses()
            .map(|k| self.rating(k, 1, self.gain(k)))
            .sum()
    }

    pub fn overall_reached(&self) -> bool
        requires { self.now.segment ≤ segments_of self.now.ranged.district.now }
        ensures { result ≡ overall_reached self.now.ranged.district.now self.now.segment self.now.strategy }
    {
        let pavement = self.pavement();
        let required = pavement_at(self.ranged.district, pavement, OVERALL);
        reaches(self.first_ratings(), required)
    }

    // The overall requirement before the minima, since it asks for the ratings of one year alone.
    #[tactic(auto, using(base::proofs::Choice::picks), unfolding(rules::specs::Rating::permitted))]
    fn permitted(&self) -> bool
        requires { self.now.segment ≤ segments_of self.now.ranged.district.now }
        ensures { result ≡ permitted self.now.ranged.district.now self.now.segment self.now.strategy }
    {
        !barred(self.ranged.district, self.segment, self.strategy)
            && self.overall_reached()
            && self.minima_reached()
    }

    // ---- candidates

    // Whether the strategy on the segment stays within each limit by itself.
    fn fits_alone(&self) -> bool
        ensures { result ≡ fits_alone self.now.ranged.district.now self.now.segment self.now.strategy }
    {
        self.ranged
            .resources()
            .all(|r| self.usage(r) <= self.ranged.scaled_limit(r))
    }

    // The benefit of a candidate; 0 for any other strategy, as the table has it: its one caller would take an Option apart. What is
    // cheap to test is tested first.
    fn worth(&self) -> u64
        requires { self.now.segment ≤ segments_of self.now.ranged.district.now }
        ensures { result ≡ pick (candidate self.now.ranged.district.now self.now.segment self.now.strategy) (nat_abs (benefit self.now.ranged.district.now self.now.segment self.now.strategy)) 0 }
    {
        if barred(self.ranged.district, self.segment, self.strategy) || !self.fits_alone() {
            return 0;
        }
        let b = self.benefit();
        if b <= 0 || !self.permitted() {
            return 0;
        }
        b as u64
    }
}

// ---- the entries of a district's table, 0 for what it does not have

impl<'a> Ranged<'a> {
    // Strategy j on segment i. None where the district does not have both.
    fn treatment(&self, i: usize, j: usize) -> Option<Treatment<'a>>
        requires { Segment i }
        ensures { MatchOption result (has self.now.district.now i j ≡ false) (λ t. (has self.now.district.now i j ≡ true) × (t.ranged.district.now ≡ self.now.district.now) × (t.segment ≡ i) × (t.strategy ≡ j)) }
    {
        if !has(self.district, i, j) {
            return None;
        }
        Some(Treatment {
            ranged: *self,
            segment: i,
            strategy: j,
        })
    }

    #[tactic(auto, unfolding(rules::specs::Table::candidate_benefit))]
    pub fn candidate_benefit(&self, i: usize, j: usize) -> u64
        requires { Segment i }
        ensures { result ≡ candidate_benefit self.now.district.now i j }
    {
        self.treatment(i, j).map_or(0, |t| t.worth())
    }

    // The area that strategy j treats on segment i.
    #[tactic(auto, unfolding(crate::specs::Areas::area_in))]
    pub fn area_in(&self, i: usize, j: usize) -> u64
        requires { Segment i }
        ensures { result ≡ area_in self.now.district.now i j }
    {
        self.treatment(i, j).map_or(0, |t| t.area())
    }

    // The use of resource r, where a is the area that strategy j treats: it stands for the treatment, since it is found once for
    // all resources. The product is that of Treatment::usage: one function of both would be the product and nothing else.
    pub fn usage_in(&self, j: usize, r: usize, a: u64) -> u64
        requires { Resource r × Treats self.now.district.now j a }
        ensures { (i : ℕ) → a ≡ area_in self.now.district.now i j → result ≡ usage_in self.now.district.now i j r }
    {
        if a == 0 || self.district[RESOURCE_COUNT] < r {
            return 0;
        }
        a * (strategy_at(self.district, j, r - 1) as u64)
    }

    // By `if`: `(r <= count).then(|| limit).unwrap_or(0)` makes an Option and takes it apart in one line.
    #[tactic(auto, using(base::proofs::Choice::picks), unfolding(rules::specs::Table::limit_in))]
    pub fn limit_in(&self, r: usize) -> u64
        requires { Resource r }
        ensures { result ≡ limit_in self.now.district.now r }
    {
        if r <= self.district[RESOURCE_COUNT] {
            self.scaled_limit(r)
        } else {
            0
        }
    }

    // ---- what a programme uses of resource r; the strategies that it gives may be any numbers

    // By segment i.
    #[tactic(auto, unfolding(rules::specs::Phases::chosen_usage, rules::specs::Table::table_of))]
    pub fn chosen_usage(&self, c: &[usize; MOST_SEGMENTS], r: usize, i: usize) -> u64
        requires { Resource r × Segment i }
        ensures { result ≡ chosen_usage (table_of self.now.district.now) c.now r i }
    {
        let j = c[i - 1];
        self.usage_in(j, r, self.area_in(i, j))
    }

    // By all segments.
    pub fn used(&self, c: &[usize; MOST_SEGMENTS], r: usize) -> u64
        requires { Resource r }
        ensures { result ≡ Phases·used (table_of self.now.district.now) c.now r }
    {
        self.segments().map(|i| self.chosen_usage(c, r, i)).sum()
    }
}
