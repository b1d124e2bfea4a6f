//! Between which edges the values are that meet a test.
ghost use Rattle.std.specs.Prelude.{◌≡◌, IfOk};
ghost use Rattle.raven_value.specs.ScalarView.{scalar_view, test_view};
ghost use Rattle.term_index.specs.Edges as edge;
ghost use Rattle.term_index.specs.KeyView.{mark_of};
ghost use Rattle.term_index.specs.Marks as mark;

use crate::key::Key;
use raven_base::{NoMemory, Shared};
use raven_value::{Scalar, Test, Text};
use std::alloc::Global;

pub fn before(alloc: Global, value: Scalar) -> Result<Key, NoMemory>
    ensures { IfOk result (λ key. mark_of key ≡ mark.before (scalar_view value)) }
{
    Ok(Key::Before(Shared::of(alloc, value)?))
}

pub fn after(alloc: Global, value: Scalar) -> Result<Key, NoMemory>
    ensures { IfOk result (λ key. mark_of key ≡ mark.after (scalar_view value)) }
{
    Ok(Key::After(Shared::of(alloc, value)?))
}

pub fn before_texts(alloc: Global) -> Result<Key, NoMemory>
    ensures { IfOk result (λ key. mark_of key ≡ edge.before_texts) }
{
    let empty = Text::of(alloc, "")?;
    before(alloc, Scalar::Text(empty))
}

/// Before all values that can be in order with this one.
fn kind_start(alloc: Global, value: &Scalar) -> Result<Key, NoMemory>
    ensures { IfOk result (λ key. mark_of key ≡ edge.kind_start (scalar_view value.now)) }
{
    match value {
        Scalar::Num(_) => after(alloc, Scalar::Flag(true)),
        Scalar::Text(_) => before_texts(alloc),
        _ => before(alloc, Scalar::Null),
    }
}

/// After all values that can be in order with this one.
fn kind_end(alloc: Global, value: &Scalar) -> Result<Key, NoMemory>
    ensures { IfOk result (λ key. mark_of key ≡ edge.kind_end (scalar_view value.now)) }
{
    match value {
        Scalar::Num(_) => before_texts(alloc),
        _ => Ok(Key::End),
    }
}

/// Values at least this one are after this edge.
fn start_at(alloc: Global, value: &Scalar, exact: bool) -> Result<Key, NoMemory>
    ensures { IfOk result (λ key. mark_of key ≡ edge.start_at exact (scalar_view value.now)) }
{
    match value {
        Scalar::Text(_) if exact => before_texts(alloc),
        value => before(alloc, value.clone()?),
    }
}

/// Values above this one are after this edge.
fn start_after(alloc: Global, value: &Scalar, exact: bool) -> Result<Key, NoMemory>
    ensures { IfOk result (λ key. mark_of key ≡ edge.start_after exact (scalar_view value.now)) }
{
    match value {
        Scalar::Text(_) if exact => before_texts(alloc),
        value => after(alloc, value.clone()?),
    }
}

/// Values below this one are before this edge.
fn end_before(alloc: Global, value: &Scalar, exact: bool) -> Result<Key, NoMemory>
    ensures { IfOk result (λ key. mark_of key ≡ edge.end_before exact (scalar_view value.now)) }
{
    match value {
        Scalar::Text(_) if exact => Ok(Key::End),
        value => before(alloc, value.clone()?),
    }
}

/// Values at most this one are before this edge.
fn end_at(alloc: Global, value: &Scalar, exact: bool) -> Result<Key, NoMemory>
    ensures { IfOk result (λ key. mark_of key ≡ edge.end_at exact (scalar_view value.now)) }
{
    match value {
        Scalar::Text(_) if exact => Ok(Key::End),
        value => after(alloc, value.clone()?),
    }
}

/// No value before this edge meets the test.
pub fn low_edge(alloc: Global, test: &Test, exact: bool) -> Result<Key, NoMemory>
    ensures { IfOk result (λ key. mark_of key ≡ edge.low_edge (test_view test.now) exact) }
{
    match test {
        Test::Is(value) => before(alloc, value.clone()?),
        Test::Below(bound) => kind_start(alloc, bound),
        Test::AtMost(bound) => kind_start(alloc, bound),
        Test::Above(bound) => start_after(alloc, bound, exact),
        Test::AtLeast(bound) => start_at(alloc, bound, exact),
        Test::Between(low, _) => start_at(alloc, low, exact),
        Test::Starts(prefix) => before(alloc, Scalar::Text(prefix.clone()?)),
        Test::There => after(alloc, Scalar::Null),
        Test::Not(_) | Test::In(_) => before(alloc, Scalar::Null),
    }
}

/// No value after this edge meets the test.
pub fn high_edge(alloc: Global, test: &Test, exact: bool) -> Result<Key, NoMemory>
    ensures { IfOk result (λ key. mark_of key ≡ edge.high_edge (test_view test.now) exact) }
{
    match test {
        Test::Is(value) => after(alloc, value.clone()?),
        Test::Below(bound) => end_before(alloc, bound, exact),
        Test::AtMost(bound) => end_at(alloc, bound, exact),
        Test::Between(_, high) => end_at(alloc, high, exact),
        Test::Above(bound) => kind_end(alloc, bound),
        Test::AtLeast(bound) => kind_end(alloc, bound),
        Test::Not(_) | Test::In(_) | Test::Starts(_) | Test::There => Ok(Key::End),
    }
}

fn are_in_line(exact: bool, a: &Scalar, b: &Scalar) -> bool
    ensures { result ≡ edge.are_in_line exact (scalar_view a.now) (scalar_view b.now) }
{
    match (a, b) {
        (Scalar::Num(_), Scalar::Num(_)) => true,
        (Scalar::Text(_), Scalar::Text(_)) => !exact,
        _ => false,
    }
}

fn is_one_run(exact: bool, value: &Scalar) -> bool
    ensures { result ≡ edge.is_one_run exact (scalar_view value.now) }
{
    match value {
        Scalar::Text(_) => !exact,
        _ => true,
    }
}

/// Whether each value between the edges of a test meets it.
pub fn is_span(test: &Test, exact: bool) -> bool
    ensures { result ≡ edge.is_span (test_view test.now) exact }
{
    match test {
        Test::Is(value) => is_one_run(exact, value),
        Test::Below(bound) | Test::AtMost(bound) | Test::Above(bound) | Test::AtLeast(bound) => {
            are_in_line(exact, bound, bound)
        }
        Test::Between(low, high) => are_in_line(exact, low, high),
        Test::There => true,
        Test::Not(_) | Test::In(_) | Test::Starts(_) => false,
    }
}
