//! Pages of the ids of a field, in an order of their values.
ghost use Rattle.std.specs.Prelude.{◌≡◌, ◌<◌, ◌≤◌, ◌-◌, Bool, IfOk, IfSome, true, false, nat_eq, drop, filter, length, map, take};
ghost use Rattle.std.specs.Ordering.{is_lt};
ghost use Rattle.std.specs.FinMap.{entries, from_entries};
ghost use Rattle.spec_data.specs.Folding.{folded, key_cmp};
ghost use Rattle.spec_query.specs.Sorting.{sorted};
ghost use Rattle.raven_value.specs.ScalarView.{test_view};
ghost use Rattle.paged_map.specs.Range.{between};
ghost use Rattle.term_index.specs.Cuts.{IsRunAt};
ghost use Rattle.term_index.specs.Decided.{Decide};
ghost use Rattle.term_index.specs.Held.{AreApart, AreTerms, held};
ghost use Rattle.term_index.specs.KeyView.{by_mark, mark_of};
ghost use Rattle.term_index.specs.Lines as line;
ghost use Rattle.term_index.specs.Ordered.{by_value};

use crate::counting::ValueCondition;
use crate::edges::{after, before};
use crate::key::Key;
use crate::one_run::{Run, are_in_line, run_of};
use crate::sets::add;
use crate::values::ValueOrder;
use crate::walks::TermSet;
use paged_map::Pairs;
use raven_base::NoMemory;
use raven_value::{Ids, Scalar, Test};
use std::alloc::Global;

/// The ids of the first of these terms, `size` at most.
fn first_ids(alloc: Global, terms: Pairs<'_, Key, ()>, size: u64) -> Result<Ids, NoMemory>
    ensures { IfOk result (λ ids. map folded ids ≡ map (λ e. e.0) (take size (held terms.entry))) }
{
    let mut ids = Ids::new(alloc);
    let mut left = size;
    for pair in terms {
        if left == 0 {
            break;
        }
        if let Key::At(term) = &pair.0 {
            ids.push(term.get().id.get().clone()?)?;
            left -= 1;
        }
    }
    Ok(ids)
}

/// How many terms are before an edge.
pub fn count_before(alloc: Global, terms: &TermSet, edge: &Key) -> Result<u64, NoMemory>
    requires terms { AreTerms terms.now }
    requires edge { nat_eq (mark_of edge.now).side 1 ≡ false }
    ensures { IfOk result (λ count. count ≡ length (filter (λ e. is_lt (by_mark e.0 edge.now)) terms.now)) }
{
    let first = before(alloc, Scalar::Null)?;
    Ok(terms.count_between(&first, edge))
}

/// The ids of the terms between two edges, after the first `start`, `size` at most, if `base` terms are before them. It takes three
/// searches, and no walk over the terms before these.
fn page_up(
    alloc: Global,
    terms: &TermSet,
    base: u64,
    low: &Key,
    high: &Key,
    start: u64,
    size: u64,
) -> Result<Ids, NoMemory>
    requires terms { AreTerms terms.now }
    requires base { base ≡ length (filter (λ e. is_lt (by_mark e.0 low.now)) terms.now) }
    ensures { IfOk result (λ ids. map folded ids ≡ map (λ e. e.0) (take size (drop start (held (between by_mark low.now high.now terms.now))))) }
{
    // The proof needs that the number of all terms has 64 bits.
    let _all = terms.len();
    let Some(place) = base.checked_add(start) else {
        return Ok(Ids::new(alloc));
    };
    match terms.nth(place) {
        Some(pair) => first_ids(alloc, terms.range(&pair.0, high), size),
        None => Ok(Ids::new(alloc)),
    }
}

/// Of the first `end` terms between two edges, the place of the first and the place past the last that have the value of the one at a
/// place, if `base` terms are before these. It takes five searches.
fn run_at(
    alloc: Global,
    terms: &TermSet,
    base: u64,
    low: &Key,
    high: &Key,
    end: u64,
    at: u64,
) -> Result<(u64, u64), NoMemory>
    requires terms { AreTerms terms.now }
    requires base { base ≡ length (filter (λ e. is_lt (by_mark e.0 low.now)) terms.now) }
    requires at { at < end }
    requires end { end ≤ length (between by_mark low.now high.now terms.now) }
    ensures { IfOk result (λ run. IsRunAt (held (between by_mark low.now high.now terms.now)) end at run.0 run.1) }
{
    // The proof needs that the number of all terms has 64 bits.
    let _all = terms.len();
    let Some(pair) = terms.nth(base + at) else {
        unreachable!();
    };
    let Key::At(term) = &pair.0 else {
        unreachable!();
    };
    let value = &term.get().value;
    let under = before(alloc, value.clone()?)?;
    let over = after(alloc, value.clone()?)?;
    let past = terms.count_between(low, &over);
    let past = if past < end { past } else { end };
    Ok((terms.count_between(low, &under), past))
}

/// The ids of the terms between two edges, from the greatest value on, those of one value in the order of the terms; after the first
/// `start`, `size` at most, if `base` terms are before these. It takes eight searches a value, and no walk over the terms that are not of the page.
fn page_down(
    alloc: Global,
    terms: &TermSet,
    base: u64,
    low: &Key,
    high: &Key,
    start: u64,
    size: u64,
) -> Result<Ids, NoMemory>
    requires terms { AreTerms terms.now }
    requires base { base ≡ length (filter (λ e. is_lt (by_mark e.0 low.now)) terms.now) }
    ensures { IfOk result (λ ids. (long : Bool) → line.AllInLine long (held (between by_mark low.now high.now terms.now)) →
        map folded ids ≡ map (λ e. e.0) (take size (drop start (sorted (by_value long true) (held (between by_mark low.now high.now terms.now)))))) }
{
    let mut ids = Vec::new(alloc);
    let mut end = terms.count_between(low, high);
    let mut skip = start;
    let mut left = size;
    while left > 0 && skip < end {
        let (first, past) = run_at(alloc, terms, base, low, high, end, end - 1 - skip)?;
        let many = end - skip - first;
        let from = past - many;
        let many = if left < many { left } else { many };
        add(
            &mut ids,
            page_up(alloc, terms, base, low, high, from, many)?,
        )?;
        end = first;
        skip = 0;
        left -= many;
    }
    Ok(Ids::of(ids))
}

/// The ids of the terms of a run, in an order of their values, after the first `start`, `size` at most. None of the terms before
/// these is walked over.
fn page_of_run(
    alloc: Global,
    terms: &TermSet,
    run: Run,
    desc: bool,
    start: u64,
    size: u64,
) -> Result<Ids, NoMemory>
    requires terms { AreTerms terms.now }
    requires order { run.start ≤ run.end }
    requires within { run.end ≤ length terms.now }
    ensures { IfOk result (λ ids. (long : Bool) → line.AllInLine long (held (take (run.end - run.start) (drop run.start terms.now))) →
        map folded ids ≡ map (λ e. e.0) (take size (drop start (sorted (by_value long desc) (held (take (run.end - run.start) (drop run.start terms.now))))))) }
{
    // The proof needs that the terms are in order.
    let _terms = terms.len();
    if run.start == run.end {
        return Ok(Ids::new(alloc));
    }
    let (Some(low), Some(high)) = (terms.nth(run.start), terms.nth(run.end - 1)) else {
        unreachable!();
    };
    if desc {
        page_down(alloc, terms, run.start, &low.0, &high.0, start, size)
    } else {
        page_up(alloc, terms, run.start, &low.0, &high.0, start, size)
    }
}

/// Of the ids whose values meet a condition that these tests decide, those after the first `start`, `size` at most, in an order of
/// their values. None if it is not known without a walk which they are, if there are others between them, or if their values are not
/// in the order of their terms.
pub fn ids_in_order<C: ValueCondition>(
    alloc: Global,
    terms: &TermSet,
    tests: &[(&Test, bool)],
    condition: &C,
    order: ValueOrder,
    start: u64,
    size: u64,
) -> Result<Option<Ids>, NoMemory>
    requires terms { AreTerms terms.now }
    requires apart { AreApart (held terms.now) }
    requires tests { Decide (map (λ t. (test_view t.0.now, t.1)) tests.now) (C.meets condition.now) }
    ensures { IfOk result (λ page. IfSome page (λ ids.
        map folded ids ≡ map (λ e. e.0) (take size (drop start (sorted (by_value order.long order.desc)
        (filter (λ e. C.meets condition.now e.1) (entries (from_entries {R = key_cmp} (held terms.now))))))))) }
{
    // The proof needs that the terms are in order.
    let _terms = terms.len();
    let Some(run) = run_of(alloc, terms, tests, condition)? else {
        return Ok(None);
    };
    if !are_in_line(alloc, terms, run, order.long)? {
        return Ok(None);
    }
    Ok(Some(page_of_run(alloc, terms, run, order.desc, start, size)?))
}
