// Document 02, request 4: why a segment has, or has not, a strategy.
#![tactic(auto)]

ghost use Rattle.std.specs.Prelude.{◌≡◌, ◌≤◌, Option};
ghost use Rattle.base.specs.Search.{first};
ghost use Rattle.rating.specs.Numbers.{Distress};
ghost use Rattle.rules.specs.Answers.{answer_in};
ghost use Rattle.rules.specs.Calls.{bar_refusal, explained};
ghost use Rattle.rules.specs.District.{segments_of, years_of, distresses_of, resources_of, leader_of};
ghost use Rattle.rules.specs.Phases.{strategy_at, give, led};
ghost use Rattle.rules.specs.Reasons.{given, hindrance, reason_for};
ghost use Rattle.rules.specs.declared.Reason.TheVariants.{MinimumMissed, OverAlone, OverBeside};
ghost use Rattle.reasons.specs.Search.{late_hindrance};

use rating::{Ranged, Treatment};
use rules::places::*;
use rules::{District, Edit, Reason, Refusal};

// A treatment of a segment that the district has, under a programme of any numbers: why is it, or is it not, in it?
#[derive(Clone, Copy)]
struct Question<'d, 'c> {
    treatment: Treatment<'d>,
    programme: &'c [usize; MOST_SEGMENTS],
    ghost own_segment: { treatment.segment ≤ segments_of treatment.ranged.district.now },
}

impl Question<'_, '_> {
    // ---- a minimum rating missed

    // The first year in which that of distress k is.
    fn missed_year(&self, k: usize) -> Option<Reason>
        requires { Distress k }
        ensures { let t = self.now.treatment in result ≡ first (years_of t.ranged.district.now) (λ y. given t.ranged.district.now self.now.programme.now t.segment t.strategy (MinimumMissed k y)) }
    {
        let gain = self.treatment.gain(k);
        self.treatment.ranged.years().find_map(|t| {
            let missed = !self.treatment.minimum_reached(k, t, gain);
            missed.then_some(Reason::MinimumMissed(k, t))
        })
    }

    // The first distress type with such a year.
    fn missed_minimum(&self) -> Option<Reason>
        ensures { let t = self.now.treatment in result ≡ first (distresses_of t.ranged.district.now) (λ k. first (years_of t.ranged.district.now) (λ y. given t.ranged.district.now self.now.programme.now t.segment t.strategy (MinimumMissed k y))) }
    {
        self.treatment
            .ranged
            .distresses()
            .find_map(|k| self.missed_year(k))
    }

    // ---- over a limit

    // The first resource of which the strategy alone uses more than the limit.
    fn over_alone(&self) -> Option<Reason>
        ensures { let t = self.now.treatment in result ≡ first (resources_of t.ranged.district.now) (λ r. given t.ranged.district.now self.now.programme.now t.segment t.strategy (OverAlone r)) }
    {
        let t = self.treatment;
        t.ranged.resources().find_map(|r| {
            let over = t.ranged.scaled_limit(r) < t.usage(r);
            over.then_some(Reason::OverAlone(r))
        })
    }

    // The programme with the strategy on the segment.
    fn asked(&self) -> [usize; MOST_SEGMENTS]
        ensures { result ≡ give self.now.programme.now self.now.treatment.segment self.now.treatment.strategy }
    {
        let mut asked = *self.programme;
        asked[self.treatment.segment - 1] = self.treatment.strategy;
        asked
    }

    // The first resource of which that programme uses more than the limit.
    fn over_beside(&self) -> Option<Reason>
        ensures { let t = self.now.treatment in result ≡ first (resources_of t.ranged.district.now) (λ r. given t.ranged.district.now self.now.programme.now t.segment t.strategy (OverBeside r)) }
    {
        let ranged = self.treatment.ranged;
        let asked = self.asked();
        ranged.resources().find_map(|r| {
            let over = ranged.scaled_limit(r) < ranged.used(&asked, r);
            over.then_some(Reason::OverBeside(r))
        })
    }

    // ---- leaders

    // Whether the segment has no leader, or one that has something: tables' is_led, of a district in place of a list of leaders.
    // The district's own number of no leader is 0: an Option would be made of it to be taken apart in the same line.
    #[tactic(auto, using(base::proofs::Choice::picks), unfolding(rules::specs::Phases::led, rules::specs::District::leader_of))]
    fn is_led(&self) -> bool
        ensures { let t = self.now.treatment in result ≡ led (leader_of t.ranged.district.now) (strategy_at self.now.programme.now) t.segment }
    {
        let t = self.treatment;
        let leader = rating::segment_at(t.ranged.district, t.segment, LEADER);
        leader == 0 || 0 < self.programme[leader - 1]
    }

    // ---- all of them, the first before the next

    // By `or`, here and below: of a closure in `or_else` nothing is inferred (tried), so each would state once more what the
    // function that it calls ensures.

    // From the leader on: it has nothing, or a limit is passed.
    fn late_hindrance(&self) -> Option<Reason>
        ensures { let t = self.now.treatment in result ≡ late_hindrance t.ranged.district.now self.now.programme.now t.segment t.strategy }
    {
        let unled = !self.is_led();
        let leader = unled.then_some(Reason::LeaderHasNothing);
        leader.or(self.over_alone()).or(self.over_beside())
    }

    fn hindrance(&self) -> Option<Reason>
        ensures { let t = self.now.treatment in result ≡ hindrance t.ranged.district.now self.now.programme.now t.segment t.strategy }
    {
        let t = self.treatment;
        let held = self.programme[t.segment - 1] == t.strategy;
        let barred = rating::barred(t.ranged.district, t.segment, t.strategy);
        let short = !t.overall_reached();
        let worthless = t.benefit() <= 0;
        held.then_some(Reason::InProgramme)
            .or(barred.then_some(Reason::Barred))
            .or(self.missed_minimum())
            .or(short.then_some(Reason::OverallMissed))
            .or(worthless.then_some(Reason::NoBenefit))
            .or(self.late_hindrance())
    }
}

// The answer for any numbers, any value of the type and any programme: refused as a bar is, else the reason.
pub fn why(d: &District, c: &[usize; MOST_SEGMENTS], i: usize, j: usize) -> Result<Reason, Refusal>
    ensures { answer_in result ≡ explained (bar_refusal d.now i j) (reason_for d.now c.now i j) }
{
    edits::check(d, Edit::Bar(i, j))?;
    let Some(ranged) = Ranged::of(d) else {
        return Ok(Reason::NoGreaterTotal);
    };
    let question = Question {
        treatment: Treatment {
            ranged,
            segment: i,
            strategy: j,
        },
        programme: c,
    };
    Ok(question.hindrance().unwrap_or(Reason::NoGreaterTotal))
}
