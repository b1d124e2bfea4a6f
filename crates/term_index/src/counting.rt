//! How many ids have values that meet a condition, by the runs of terms between which no test of it changes its answer.
ghost use Rattle.std.specs.Prelude.{◌≡◌, ◌≤◌, ◌-◌, Bool, IfOk, IfSome, drop, length, map, take};
ghost use Rattle.std.specs.List.Sorted.{IsNonDecreasing};
ghost use Rattle.spec_data.specs.Scalars as is;
ghost use Rattle.raven_value.specs.ScalarView.{scalar_view, test_view};
ghost use Rattle.term_index.specs.Decided.{Decide};
ghost use Rattle.term_index.specs.Held.{AreTerms, chosen};
ghost use Rattle.term_index.specs.Steps.{AllAnswer, AreWithin, HaveOneAnswer, IsOneRun, StepsAt};

use crate::steps::{places_of, value_at};
use crate::walks::TermSet;
use raven_base::NoMemory;
use raven_value::{Scalar, Test};
use std::alloc::Global;

/// A condition on one value.
pub trait ValueCondition {
    ghost meets: { Self → is.Scalar → Bool };

    /// Whether a value meets it.
    fn is_met(&self, value: &Scalar) -> bool
        ensures { result ≡ meets self.now (scalar_view value.now) };
}

/// Whether the terms from one place up to another meet a condition, if all of them do or none does. It is asked of the first. Without
/// terms the answer is no.
pub fn is_met_in_run<C: ValueCondition>(terms: &TermSet, from: u64, to: u64, condition: &C) -> bool
    requires terms { AreTerms terms.now }
    requires run { IsOneRun (C.meets condition.now) from to terms.now }
    requires within { to ≤ length terms.now }
    ensures { AllAnswer (C.meets condition.now) result from to terms.now }
{
    if from >= to {
        return false;
    }
    match value_at(terms, from) {
        Some(value) => condition.is_met(value),
        None => false,
    }
}

/// How many of the terms from one place up to another meet a condition, if all of them do or none does.
fn count_in_run<C: ValueCondition>(terms: &TermSet, from: u64, to: u64, condition: &C) -> u64
    requires terms { AreTerms terms.now }
    requires run { IsOneRun (C.meets condition.now) from to terms.now }
    requires order { from ≤ to }
    requires within { to ≤ length terms.now }
    ensures { result ≡ length (chosen (C.meets condition.now) (take (to - from) (drop from terms.now))) }
{
    if is_met_in_run(terms, from, to, condition) {
        to - from
    } else {
        0
    }
}

/// How many terms meet a condition that changes its answer at these places alone.
fn count_in_runs<C: ValueCondition>(terms: &TermSet, places: &[u64], condition: &C) -> u64
    requires terms { AreTerms terms.now }
    requires sorted { IsNonDecreasing places.now }
    requires within { AreWithin (length terms.now) places.now }
    requires steps { StepsAt places.now (HaveOneAnswer (C.meets condition.now)) terms.now }
    ensures { result ≡ length (chosen (C.meets condition.now) terms.now) }
{
    let len = terms.len();
    let mut count = 0;
    let mut from = 0;
    for place in places {
        count += count_in_run(terms, from, *place, condition);
        from = *place;
    }
    count + count_in_run(terms, from, len, condition)
}

/// How many terms meet a condition that these tests decide, if that is known without a walk.
pub fn count_meeting<C: ValueCondition>(
    alloc: Global,
    terms: &TermSet,
    tests: &[(&Test, bool)],
    condition: &C,
) -> Result<Option<u64>, NoMemory>
    requires terms { AreTerms terms.now }
    requires tests { Decide (map (λ t. (test_view t.0.now, t.1)) tests.now) (C.meets condition.now) }
    ensures { IfOk result (λ count. IfSome count (λ n. n ≡ length (chosen (C.meets condition.now) terms.now))) }
{
    match places_of(alloc, terms, tests)? {
        Some(places) => Ok(Some(count_in_runs(terms, &places, condition))),
        None => Ok(None),
    }
}
