//! Walks over the terms of a field, from one edge to another.
ghost use Rattle.std.specs.Prelude.{◌≡◌, IfOk};
ghost use Rattle.spec_data.specs.Scalars.{Is};
ghost use Rattle.raven_value.specs.ScalarView.{scalar_view, test_view};
ghost use Rattle.paged_map.specs.Range.{between};
ghost use Rattle.reference_track.specs.Sets.{AreInOrder};
ghost use Rattle.term_index.specs.Edges as edge;
ghost use Rattle.term_index.specs.Held.{passing};
ghost use Rattle.term_index.specs.KeyView.{by_mark, mark_of};

use crate::edges::{high_edge, is_span, low_edge};
use crate::key::Key;
use paged_map::PagedMap;
use raven_base::NoMemory;
use raven_value::{Ids, Scalar, Test, matches};
use std::alloc::Global;

/// The terms of a field, in order.
pub type TermSet = PagedMap<Key, ()>;

/// Whether neither this value nor a later one meets the test. The texts that begin with one text follow one another.
fn is_past(test: &Test, value: &Scalar) -> bool
    ensures { result ≡ edge.is_past (test_view test.now) (scalar_view value.now) }
{
    match test {
        Test::Starts(_) => !matches(test, false, value),
        _ => false,
    }
}

/// The ids of the terms between two edges whose values meet a test, in the order of the terms.
fn ids_between(
    alloc: Global,
    terms: &TermSet,
    low: &Key,
    high: &Key,
    test: &Test,
    exact: bool,
) -> Result<Ids, NoMemory>
    requires { mark_of low.now ≡ edge.low_edge (test_view test.now) exact }
    ensures { IfOk result (λ ids. ids ≡ passing (test_view test.now) exact (between by_mark low.now high.now terms.now)) }
{
    let mut ids = Ids::new(alloc);
    for pair in terms.range(low, high) {
        if let Key::At(term) = &pair.0 {
            let term = term.get();
            if is_past(test, &term.value) {
                break;
            }
            if matches(test, exact, &term.value) {
                ids.push(term.id.get().clone()?)?;
            }
        }
    }
    Ok(ids)
}

/// The ids of the terms whose values meet a test, in the order of the terms. It reads the terms between the edges of the test.
pub fn ids_passing(
    alloc: Global,
    terms: &TermSet,
    test: &Test,
    exact: bool,
) -> Result<Ids, NoMemory>
    ensures { IfOk result (λ ids. ids ≡ passing (test_view test.now) exact terms.now) }
{
    let low = low_edge(alloc, test, exact)?;
    let high = high_edge(alloc, test, exact)?;
    Ok(ids_between(alloc, terms, &low, &high, test, exact)?)
}

/// The ids of the terms of a value. They are in order, since the terms of one value are in the order of their ids.
pub fn ids_of_value(
    alloc: Global,
    terms: &TermSet,
    value: &Scalar,
    exact: bool,
) -> Result<Ids, NoMemory>
    ensures ids { IfOk result (λ ids. ids ≡ passing (Is (scalar_view value.now)) exact terms.now) }
    ensures order { IfOk result (λ ids. AreInOrder ids) }
{
    // The proof needs that the terms are in order.
    let _terms = terms.len();
    let test = Test::Is(value.clone()?);
    Ok(ids_passing(alloc, terms, &test, exact)?)
}
