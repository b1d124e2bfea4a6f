//! The terms that meet a condition, if there are no others between them.
ghost use Rattle.std.specs.Prelude.{◌≡◌, ◌≤◌, IfOk, IfSome, IsTrue, length, map, suc, true};
ghost use Rattle.std.specs.List.Sorted.{IsNonDecreasing};
ghost use Rattle.raven_value.specs.ScalarView.{scalar_view, test_view};
ghost use Rattle.term_index.specs.Decided.{Decide};
ghost use Rattle.term_index.specs.Held.{AreTerms};
ghost use Rattle.term_index.specs.Lines as line;
ghost use Rattle.term_index.specs.Steps.{AllAnswer, AreWithin, HaveOneAnswer, IsOneRun, IsRunTo, StepsAt};

use crate::counting::{ValueCondition, is_met_in_run};
use crate::edges::after;
use crate::pages::count_before;
use crate::steps::{places_of, value_at};
use crate::walks::TermSet;
use raven_base::NoMemory;
use raven_value::{Scalar, Test};
use std::alloc::Global;

/// The terms from the place `start` up to the place `end`, without that at the end.
#[derive(Clone, Copy)]
pub struct Run {
    pub start: u64,
    pub end: u64,
}

/// The run with the terms from one place up to another too, if they meet the condition. None if there are others between it and them.
fn with_terms<C: ValueCondition>(
    terms: &TermSet,
    run: Run,
    from: u64,
    to: u64,
    condition: &C,
) -> Option<Run>
    requires terms { AreTerms terms.now }
    requires before { IsRunTo (C.meets condition.now) terms.now run.start run.end from }
    requires run { IsOneRun (C.meets condition.now) from to terms.now }
    requires order { from ≤ to }
    requires within { to ≤ length terms.now }
    ensures { IfSome result (λ more. IsRunTo (C.meets condition.now) terms.now more.start more.end to) }
{
    if !is_met_in_run(terms, from, to, condition) {
        return Some(run);
    }
    if run.start == run.end {
        return Some(Run {
            start: from,
            end: to,
        });
    }
    if run.end == from {
        return Some(Run {
            start: run.start,
            end: to,
        });
    }
    None
}

/// The terms that meet a condition that changes its answer at these places alone. None if there are others between them.
fn run_among<C: ValueCondition>(terms: &TermSet, places: &[u64], condition: &C) -> Option<Run>
    requires terms { AreTerms terms.now }
    requires sorted { IsNonDecreasing places.now }
    requires within { AreWithin (length terms.now) places.now }
    requires steps { StepsAt places.now (HaveOneAnswer (C.meets condition.now)) terms.now }
    ensures { IfSome result (λ run. IsRunTo (C.meets condition.now) terms.now run.start run.end (length terms.now)) }
{
    let len = terms.len();
    let mut run = Run { start: 0, end: 0 };
    let mut from = 0;
    for place in places {
        run = with_terms(terms, run, from, *place, condition)?;
        from = *place;
    }
    with_terms(terms, run, from, len, condition)
}

/// The terms that meet a condition that these tests decide. None if there are others between them, or if it is not known without a
/// walk.
pub fn run_of<C: ValueCondition>(
    alloc: Global,
    terms: &TermSet,
    tests: &[(&Test, bool)],
    condition: &C,
) -> Result<Option<Run>, NoMemory>
    requires terms { AreTerms terms.now }
    requires tests { Decide (map (λ t. (test_view t.0.now, t.1)) tests.now) (C.meets condition.now) }
    ensures { IfOk result (λ found. IfSome found (λ run. IsRunTo (C.meets condition.now) terms.now run.start run.end (length terms.now))) }
{
    match places_of(alloc, terms, tests)? {
        Some(places) => Ok(run_among(terms, &places, condition)),
        None => Ok(None),
    }
}

/// Whether an order of numbers, or of texts, compares this value by its size, or by its text.
fn is_of_order(value: &Scalar, long: bool) -> bool
    ensures { result ≡ line.is_of_order long (scalar_view value.now) }
{
    match value {
        Scalar::Num(_) => long,
        Scalar::Text(_) => !long,
        _ => false,
    }
}

fn is_of_order_at(terms: &TermSet, place: u64, long: bool) -> bool
    requires { AreTerms terms.now }
    ensures { IsTrue result → AllAnswer (line.is_of_order long) true place (suc place) terms.now }
{
    match value_at(terms, place) {
        Some(value) => is_of_order(value, long),
        None => false,
    }
}

/// Whether an order compares the values of these terms as their terms are. Values of one kind follow one another, so it looks at the
/// first that is not null, and at the last.
pub fn are_in_line(alloc: Global, terms: &TermSet, run: Run, long: bool) -> Result<bool, NoMemory>
    requires terms { AreTerms terms.now }
    requires within { run.end ≤ length terms.now }
    ensures { IfOk result (λ is. IsTrue is → AllAnswer (line.is_in_line long) true run.start run.end terms.now) }
{
    // The proof needs that the terms are in order.
    let _terms = terms.len();
    let edge = after(alloc, Scalar::Null)?;
    let nulls = count_before(alloc, terms, &edge)?;
    let first = if run.start < nulls { nulls } else { run.start };
    if first >= run.end {
        return Ok(true);
    }
    Ok(is_of_order_at(terms, first, long) && is_of_order_at(terms, run.end - 1, long))
}
