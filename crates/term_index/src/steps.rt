//! The places among the terms of a field at which a test changes its answer.
ghost use Rattle.std.specs.Prelude.{◌≡◌, ◌≤◌, ◌++◌, ◌∷◌, [], false, filter, length, map, IfOk, IfSome, IsTrue, OnOk, nat_eq, option_map, slice_get, true, Some};
ghost use Rattle.std.specs.List.Sorted.{IsNonDecreasing};
ghost use Rattle.std.specs.Ordering.{is_lt};
ghost use Rattle.spec_data.specs.Scalars.{In, Is, holds};
ghost use Rattle.raven_value.specs.ScalarView.{scalar_view, test_view};
ghost use Rattle.term_index.specs.Decided.{AreAlike};
ghost use Rattle.term_index.specs.Edges as edge;
ghost use Rattle.term_index.specs.Held.{AreTerms};
ghost use Rattle.term_index.specs.KeyView.{by_mark, mark_of};
ghost use Rattle.term_index.specs.Steps.{AreAmong, AreFromTo, AreWithin, HaveOneAnswer, StepsAt};
ghost use Rattle.term_index.specs.declared.key.Key.TheVariants as k;
ghost use Rattle.term_index.specs.declared.key.Term.{Term};

use crate::edges::{high_edge, is_span, low_edge};
use crate::key::Key;
use crate::pages::count_before;
use crate::walks::TermSet;
use raven_base::NoMemory;
use raven_value::{Scalar, Test, matches};
use std::alloc::Global;

/// Tests with more places than these are not counted. So a count asks a condition of few values.
const MOST_PLACES: usize = 128;

/// The value of the term at a place, if there are so many.
pub fn value_at(terms: &TermSet, place: u64) -> Option<&Scalar>
    ensures { (t : Term) → slice_get terms.now place ≡ Some (k.At t, tt) → option_map (λ v. scalar_view v.now) result ≡ Some (scalar_view t.value) }
{
    match terms.nth(place) {
        Some(pair) => match &pair.0 {
            Key::At(term) => Some(&term.get().value),
            _ => None,
        },
        None => None,
    }
}

/// Adds the place of an edge: as many terms are before it.
fn add_edge(
    alloc: Global,
    terms: &TermSet,
    edge: &Key,
    places: &mut Vec<u64>,
) -> Result<(), NoMemory>
    requires terms { AreTerms terms.now }
    requires edge { nat_eq (mark_of edge.now).side 1 ≡ false }
    ensures { OnOk result (places.new.items ≡ places.old.items ++ length (filter (λ e. is_lt (by_mark e.0 edge.now)) terms.now) ∷ []) }
{
    let place = count_before(alloc, terms, edge)?;
    places.push(place)?;
    Ok(())
}

/// Adds the places of the edges of a test. It returns false if not each value between them meets the test, or if there are too many
/// places.
fn add_span(
    alloc: Global,
    terms: &TermSet,
    test: &Test,
    exact: bool,
    places: &mut Vec<u64>,
) -> Result<bool, NoMemory>
    requires { AreTerms terms.now }
    ensures steps { IfOk result (λ known. IsTrue known → StepsAt places.new.items (HaveOneAnswer (holds (test_view test.now) exact)) terms.now) }
    ensures more { OnOk result (AreAmong places.old.items places.new.items) }
    ensures within { OnOk result (AreWithin (length terms.now) places.old.items → AreWithin (length terms.now) places.new.items) }
{
    // The proof needs that the terms are in order.
    let _terms = terms.len();
    if !is_span(test, exact) || places.len() >= MOST_PLACES {
        return Ok(false);
    }
    let low = low_edge(alloc, test, exact)?;
    let high = high_edge(alloc, test, exact)?;
    add_edge(alloc, terms, &low, places)?;
    add_edge(alloc, terms, &high, places)?;
    Ok(true)
}

/// The place past the last term whose text begins as a test asks, if the first of these is at `start`. It takes as many looks at a
/// term as a search in a sorted list.
fn past_prefix(terms: &TermSet, test: &Test, low: &Key, start: u64) -> u64
    requires terms { AreTerms terms.now }
    requires prefix { edge.is_prefix (test_view test.now) ≡ true }
    requires low { mark_of low.now ≡ edge.low_edge (test_view test.now) false }
    requires start { start ≡ length (filter (λ e. is_lt (by_mark e.0 low.now)) terms.now) }
    ensures run { AreFromTo (holds (test_view test.now) false) start result terms.now }
    ensures within { result ≤ length terms.now }
{
    let mut first = start;
    let mut end = terms.len();
    while first < end {
        let middle = first + (end - first) / 2;
        match value_at(terms, middle) {
            Some(value) if matches(test, false, value) => first = middle + 1,
            _ => end = middle,
        }
    }
    first
}

/// Adds the places between which texts begin as a test asks. It returns false if there are too many places.
fn add_prefix(
    alloc: Global,
    terms: &TermSet,
    test: &Test,
    places: &mut Vec<u64>,
) -> Result<bool, NoMemory>
    requires terms { AreTerms terms.now }
    requires prefix { edge.is_prefix (test_view test.now) ≡ true }
    ensures steps { IfOk result (λ known. IsTrue known → StepsAt places.new.items (HaveOneAnswer (holds (test_view test.now) false)) terms.now) }
    ensures more { OnOk result (AreAmong places.old.items places.new.items) }
    ensures within { OnOk result (AreWithin (length terms.now) places.old.items → AreWithin (length terms.now) places.new.items) }
{
    // The proof needs that the terms are in order.
    let _terms = terms.len();
    if places.len() >= MOST_PLACES {
        return Ok(false);
    }
    let low = low_edge(alloc, test, false)?;
    let start = count_before(alloc, terms, &low)?;
    let end = past_prefix(terms, test, &low, start);
    places.push(start)?;
    places.push(end)?;
    Ok(true)
}

/// Adds the places of a value.
fn add_value(
    alloc: Global,
    terms: &TermSet,
    value: &Scalar,
    exact: bool,
    places: &mut Vec<u64>,
) -> Result<bool, NoMemory>
    requires { AreTerms terms.now }
    ensures steps { IfOk result (λ known. IsTrue known → StepsAt places.new.items (HaveOneAnswer (holds (Is (scalar_view value.now)) exact)) terms.now) }
    ensures more { OnOk result (AreAmong places.old.items places.new.items) }
    ensures within { OnOk result (AreWithin (length terms.now) places.old.items → AreWithin (length terms.now) places.new.items) }
{
    let test = Test::Is(value.clone()?);
    add_span(alloc, terms, &test, exact, places)
}

/// Adds the places of each of several values.
fn add_values(
    alloc: Global,
    terms: &TermSet,
    values: &[Scalar],
    exact: bool,
    places: &mut Vec<u64>,
) -> Result<bool, NoMemory>
    requires { AreTerms terms.now }
    ensures steps { IfOk result (λ known. IsTrue known → StepsAt places.new.items (HaveOneAnswer (holds (In (map scalar_view values.now)) exact)) terms.now) }
    ensures more { OnOk result (AreAmong places.old.items places.new.items) }
    ensures within { OnOk result (AreWithin (length terms.now) places.old.items → AreWithin (length terms.now) places.new.items) }
{
    for value in values {
        if !add_value(alloc, terms, value, exact, places)? {
            return Ok(false);
        }
    }
    Ok(true)
}

/// Adds the places at which a test changes its answer. It returns false if they are not known: a text is compared exactly, or there
/// are too many places.
fn add_test(
    alloc: Global,
    terms: &TermSet,
    test: &Test,
    exact: bool,
    places: &mut Vec<u64>,
) -> Result<bool, NoMemory>
    requires { AreTerms terms.now }
    ensures steps { IfOk result (λ known. IsTrue known → StepsAt places.new.items (HaveOneAnswer (holds (test_view test.now) exact)) terms.now) }
    ensures more { OnOk result (AreAmong places.old.items places.new.items) }
    ensures within { OnOk result (AreWithin (length terms.now) places.old.items → AreWithin (length terms.now) places.new.items) }
{
    match test {
        Test::Not(value) => add_value(alloc, terms, value, exact, places),
        Test::In(values) => add_values(alloc, terms, values.as_slice(), exact, places),
        Test::Starts(_) if !exact => add_prefix(alloc, terms, test, places),
        test => add_span(alloc, terms, test, exact, places),
    }
}

/// The places between which none of these tests changes its answer.
fn places_of_each(
    alloc: Global,
    terms: &TermSet,
    tests: &[(&Test, bool)],
) -> Result<Option<Vec<u64>>, NoMemory>
    requires { AreTerms terms.now }
    ensures steps { IfOk result (λ known. IfSome known (λ places. StepsAt places.items (AreAlike (map (λ t. (test_view t.0.now, t.1)) tests.now)) terms.now)) }
    ensures within { IfOk result (λ known. IfSome known (λ places. AreWithin (length terms.now) places.items)) }
{
    let mut places = Vec::new(alloc);
    for asked in tests {
        if !add_test(alloc, terms, asked.0, asked.1, &mut places)? {
            return Ok(None);
        }
    }
    Ok(Some(places))
}

/// The places, in order, between which none of these tests changes its answer, each test with whether it compares texts exactly.
/// None if they are not known.
pub fn places_of(
    alloc: Global,
    terms: &TermSet,
    tests: &[(&Test, bool)],
) -> Result<Option<Vec<u64>>, NoMemory>
    requires { AreTerms terms.now }
    ensures sorted { IfOk result (λ known. IfSome known (λ places. IsNonDecreasing places.items)) }
    ensures steps { IfOk result (λ known. IfSome known (λ places. StepsAt places.items (AreAlike (map (λ t. (test_view t.0.now, t.1)) tests.now)) terms.now)) }
    ensures within { IfOk result (λ known. IfSome known (λ places. AreWithin (length terms.now) places.items)) }
{
    match places_of_each(alloc, terms, tests)? {
        Some(mut places) => {
            places.sort_unstable();
            Ok(Some(places))
        }
        None => Ok(None),
    }
}
