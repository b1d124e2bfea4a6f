//! The values of one field.
ghost use Rattle.std.specs.Prelude.{◌≡◌, ℕ, List, None, IfOk, IfSome, IsTrue, cond, drop, false, filter, map, option_map, take};
ghost use Rattle.std.specs.FinMap.{empty, entries, find, get, len};
ghost use Rattle.std.specs.Ordering.{eq_by_cmp};
ghost use Rattle.spec_data.specs.Folding.{folded, key_cmp};
ghost use Rattle.spec_data.specs.Scalars.{In, Is};
ghost use Rattle.raven_value.specs.ScalarView.{scalar_view, test_view};
ghost use Rattle.spec_query.specs.Sorting.{sorted};
ghost use Rattle.reference_track.specs.Sets.{AreInOrder, is_one_of};
ghost use Rattle.std.specs.Option.{option_map_or};
ghost use Rattle.term_index.specs.Decided.{Decide};
ghost use Rattle.term_index.specs.Held.{AreApart, AreTerms, IsCountOf, held, passes, set_value};
ghost use Rattle.term_index.specs.KeyView.{term_of};
ghost use Rattle.term_index.specs.Ordered.{by_value};

use crate::counting::{ValueCondition, count_meeting};
use crate::key::{Key, Term};
use crate::pages::ids_in_order;
use crate::sets::{add, in_order};
use crate::values::ValueOrder;
use crate::walks::{TermSet, ids_of_value, ids_passing};
use paged_map::PagedMap;
use raven_base::{NoMemory, Shared};
use raven_value::{Id, Ids, Scalar, Test};
use std::alloc::{AllocError, Global};
use std::marker::Model;

/// A value for each of some ids, seen by contracts as the map from their folded ids to the values.
pub struct Column {
    terms: TermSet,
}

// Opaque drop: see raven_base.
impl Drop for Column {
    fn drop(self) {
        let Column { terms: _terms } = self;
    }
}

impl Model for Column {
    ghost use Rattle.std.specs.FinMap.{code, from_entries};
    ghost use Rattle.spec_data.specs.Codes.{text_code, scalar_code};
    ghost use Rattle.std.specs.Option.{option_map_or};
    ghost use Rattle.term_index.specs.Decided.{Decide};
    ghost use Rattle.term_index.specs.Held.{AreApart, AreTerms, Values, held};

    ghost Value = { Values };

    ghost coded = { code text_code scalar_code };

    ghost view = { λ a. from_entries (held a.terms) };

    ghost invariant = { λ a. AreApart (held a.terms) × AreTerms a.terms };
}

/// Whether two values are the same, or both are missing.
#[tactic(auto, using(crate::proofs::Changes::same_scalar))]
fn are_same(a: Option<&Scalar>, b: Option<&Scalar>) -> bool
    ensures { IsTrue result → option_map (λ v. scalar_view v.now) a.entry ≡ option_map (λ v. scalar_view v.now) b.entry }
{
    match (a, b) {
        (Some(a), Some(b)) => a == b,
        (None, None) => true,
        _ => false,
    }
}

fn term_at(alloc: Global, id: &Shared<Id>, value: &Scalar) -> Result<Key, NoMemory>
    ensures { IfOk result (λ key. key ≡ term_of value.now id.now) }
{
    let term = Term {
        value: value.clone()?,
        id: id.clone()?,
    };
    Ok(Key::At(Shared::of(alloc, term)?))
}

/// The terms with a value of an id that has none.
fn with_value(
    alloc: Global,
    terms: TermSet,
    id: &Shared<Id>,
    value: Option<&Scalar>,
) -> Result<TermSet, NoMemory>
    requires apart { AreApart (held terms) }
    requires terms { AreTerms terms }
    requires new { find key_cmp (folded id.now) (held terms) ≡ None }
    ensures values { IfOk result (λ m. (q : List ℕ) → find key_cmp q (held m) ≡ cond (eq_by_cmp key_cmp q (folded id.now)) (option_map (λ v. scalar_view v.now) value.entry) (find key_cmp q (held terms))) }
    ensures apart { IfOk result (λ m. AreApart (held m)) }
    ensures terms { IfOk result (λ m. AreTerms m) }
{
    match value {
        Some(value) => {
            let term = term_at(alloc, id, value)?;
            Ok(terms.put(alloc, term, ())?)
        }
        None => Ok(terms),
    }
}

/// The terms without the value of an id.
fn without_value(
    alloc: Global,
    terms: TermSet,
    id: &Shared<Id>,
    value: Option<&Scalar>,
) -> Result<TermSet, NoMemory>
    requires apart { AreApart (held terms) }
    requires terms { AreTerms terms }
    requires old { find key_cmp (folded id.now) (held terms) ≡ option_map (λ v. scalar_view v.now) value }
    ensures values { IfOk result (λ m. (q : List ℕ) → find key_cmp q (held m) ≡ cond (eq_by_cmp key_cmp q (folded id.now)) None (find key_cmp q (held terms))) }
    ensures apart { IfOk result (λ m. AreApart (held m)) }
    ensures terms { IfOk result (λ m. AreTerms m) }
{
    match value {
        Some(value) => {
            let term = term_at(alloc, id, value)?;
            Ok(terms.take_out(alloc, &term)?)
        }
        None => Ok(terms),
    }
}

impl Column {
    /// No values.
    pub fn new(alloc: Global) -> Result<Column, NoMemory>
        ensures { IfOk result (λ column. column ≡ empty) }
    {
        Ok(Column {
            terms: PagedMap::new(alloc)?,
        })
    }

    /// How many ids have a value. The number is kept.
    pub fn len(&self) -> u64
        ensures { result ≡ len self.now }
    {
        self.terms.len()
    }

    fn replaced(
        self,
        alloc: Global,
        id: &Shared<Id>,
        old: Option<&Scalar>,
        new: Option<&Scalar>,
    ) -> Result<Column, NoMemory>
        requires { get self (folded id.now) ≡ option_map (λ v. scalar_view v.now) old }
        ensures { IfOk result (λ column. column ≡ set_value (folded id.now) (option_map (λ v. scalar_view v.now) new.entry) self) }
    {
        let Column { terms } = self;
        let less = without_value(alloc, terms, id, old)?;
        Ok(Column {
            terms: with_value(alloc, less, id, new)?,
        })
    }

    /// The column with the new value of an id in place of the old one. If they are the same, nothing is done.
    pub fn replace(
        self,
        alloc: Global,
        id: &Shared<Id>,
        old: Option<&Scalar>,
        new: Option<&Scalar>,
    ) -> Result<Column, NoMemory>
        requires { get self (folded id.now) ≡ option_map (λ v. scalar_view v.now) old }
        ensures { IfOk result (λ column. column ≡ set_value (folded id.now) (option_map (λ v. scalar_view v.now) new.entry) self) }
    {
        if are_same(old, new) {
            Ok(self)
        } else {
            self.replaced(alloc, id, old, new)
        }
    }

    /// The ids of a value, in order.
    pub fn equal(&self, alloc: Global, value: &Scalar, exact: bool) -> Result<Ids, NoMemory>
        ensures members { IfOk result (λ ids. (q : List ℕ) → is_one_of q ids ≡ passes (Is (scalar_view value.now)) exact (get self.now (folded q))) }
        ensures order { IfOk result (λ ids. AreInOrder ids) }
    {
        Ok(ids_of_value(alloc, &self.terms, value, exact)?)
    }

    fn equal_to_one(&self, alloc: Global, values: &[Scalar], exact: bool) -> Result<Ids, NoMemory>
        ensures members { IfOk result (λ ids. (q : List ℕ) → is_one_of q ids ≡ passes (In (map scalar_view values.now)) exact (get self.now (folded q))) }
        ensures order { IfOk result (λ ids. AreInOrder ids) }
    {
        let mut ids = Vec::new(alloc);
        for value in values {
            let more = self.equal(alloc, value, exact)?;
            add(&mut ids, more)?;
        }
        Ok(in_order(ids))
    }

    fn passing(&self, alloc: Global, test: &Test, exact: bool) -> Result<Ids, NoMemory>
        ensures members { IfOk result (λ ids. (q : List ℕ) → is_one_of q ids ≡ passes (test_view test.now) exact (get self.now (folded q))) }
        ensures order { IfOk result (λ ids. AreInOrder ids) }
    {
        let ids = ids_passing(alloc, &self.terms, test, exact)?;
        Ok(in_order(ids.into_vec()))
    }

    /// The ids whose values meet a test, in order.
    pub fn range(&self, alloc: Global, test: &Test, exact: bool) -> Result<Ids, NoMemory>
        ensures members { IfOk result (λ ids. (q : List ℕ) → is_one_of q ids ≡ passes (test_view test.now) exact (get self.now (folded q))) }
        ensures order { IfOk result (λ ids. AreInOrder ids) }
    {
        match test {
            Test::Is(value) => self.equal(alloc, value, exact),
            Test::In(values) => self.equal_to_one(alloc, values.as_slice(), exact),
            test => self.passing(alloc, test, exact),
        }
    }

    /// How many ids have values that meet a condition that these tests decide, if that is known without a walk over them.
    pub fn count<C: ValueCondition>(
        &self,
        alloc: Global,
        tests: &[(&Test, bool)],
        condition: &C,
    ) -> Result<Option<u64>, NoMemory>
        requires { Decide (map (λ t. (test_view t.0.now, t.1)) tests.now) (C.meets condition.now) }
        ensures { IfOk result (λ count. IfSome count (IsCountOf (λ q. option_map_or (C.meets condition.now) (get self.now (folded q)) false))) }
    {
        Ok(count_meeting(alloc, &self.terms, tests, condition)?)
    }

    /// Of the ids whose values meet a condition that these tests decide, those after the first `start`, `size` at most, in an order
    /// of their values. None if they are not known without a walk, or not in that order among the terms.
    pub fn in_order<C: ValueCondition>(
        &self,
        alloc: Global,
        tests: &[(&Test, bool)],
        condition: &C,
        order: ValueOrder,
        start: u64,
        size: u64,
    ) -> Result<Option<Ids>, NoMemory>
        requires { Decide (map (λ t. (test_view t.0.now, t.1)) tests.now) (C.meets condition.now) }
        ensures { IfOk result (λ page. IfSome page (λ ids.
            map folded ids ≡ map (λ e. e.0) (take size (drop start (sorted (by_value order.long order.desc)
            (filter (λ e. C.meets condition.now e.1) (entries self.now))))))) }
    {
        Ok(ids_in_order(alloc, &self.terms, tests, condition, order, start, size)?)
    }
}

/// A clone shares every page, and takes no memory.
impl Clone for Column {
    ghost is_clone = { λ s t. t ≡ s };

    fn clone(&self) -> Result<Column, AllocError> {
        Ok(Column {
            terms: self.terms.clone()?,
        })
    }
}
