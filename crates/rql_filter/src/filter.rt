//! The ids of the entries that meet a condition.
ghost use Rattle.std.specs.Prelude.{◌≡◌, ℕ, List, IfOk, IfSome, None, [], false, filter, is_some, length, map, true};
ghost use Rattle.spec_data.specs.Folding.{folded};
ghost use Rattle.spec_query.specs.Condition.{Has as HasTest, meets};
ghost use Rattle.raven_value.specs.ScalarView.{test_view};
ghost use Rattle.reference_track.specs.Sets.{AreInOrder, is_one_of};
ghost use Rattle.rql_filter.specs.Entries.{AreTermsOf, entry_at, ids_of, is_met};
ghost use Rattle.rql_filter.specs.OneField as one;

use crate::entries::Entries;
use crate::one_field::{Differing, add_tests, field_of, is_met_by, is_on};
use raven_base::NoMemory;
use raven_value::{Ids, Test, Text};
use rql_plan::{Condition, ConditionKind};
use std::alloc::Global;
use term_index::{Terms, common, union, without};

/// The ids of all entries.
#[inline(never)]
fn all_ids<E: Entries>(alloc: Global, entries: &E, terms: &Terms) -> Result<Ids, NoMemory>
    requires { AreTermsOf (E.entries entries.now) terms.now }
    ensures members { IfOk result (λ ids. (q : List ℕ) → is_one_of q ids ≡ is_some (entry_at (folded q) (E.entries entries.now))) }
    ensures order { IfOk result (λ ids. AreInOrder ids) }
{
    Ok(entries.ids(alloc)?)
}

/// The ids of the entries whose field meets a test.
#[inline(never)]
fn ids_that_pass<E: Entries>(
    alloc: Global,
    entries: &E,
    terms: &Terms,
    field: &Text,
    test: &Test,
    exact: bool,
) -> Result<Ids, NoMemory>
    requires { AreTermsOf (E.entries entries.now) terms.now }
    ensures members { IfOk result (λ ids. (q : List ℕ) → is_one_of q ids ≡ is_met (HasTest field.now (test_view test.now)) exact (entry_at (folded q) (E.entries entries.now))) }
    ensures order { IfOk result (λ ids. AreInOrder ids) }
{
    Ok(terms.range(alloc, field.as_str(), test, exact)?)
}

/// The ids of the entries that meet a condition. Texts are compared by their bytes if it is inside an `exact`.
fn ids_that_meet<E: Entries>(
    alloc: Global,
    entries: &E,
    terms: &Terms,
    condition: &Condition,
    exact: bool,
) -> Result<Ids, NoMemory>
    requires { AreTermsOf (E.entries entries.now) terms.now }
    ensures members { IfOk result (λ ids. (q : List ℕ) → is_one_of q ids ≡ is_met condition.now exact (entry_at (folded q) (E.entries entries.now))) }
    ensures order { IfOk result (λ ids. AreInOrder ids) }
{
    match condition.kind() {
        ConditionKind::Or(left, right) => {
            let left = ids_that_meet(alloc, entries, terms, left, exact)?;
            let right = ids_that_meet(alloc, entries, terms, right, exact)?;
            Ok(union(left, right)?)
        }
        ConditionKind::And(left, right) => {
            let left = ids_that_meet(alloc, entries, terms, left, exact)?;
            let right = ids_that_meet(alloc, entries, terms, right, exact)?;
            Ok(common(alloc, left.as_slice(), right.as_slice())?)
        }
        ConditionKind::Not(inner) => {
            let inner = ids_that_meet(alloc, entries, terms, inner, exact)?;
            let all = all_ids(alloc, entries, terms)?;
            Ok(without(alloc, all.as_slice(), inner.as_slice())?)
        }
        ConditionKind::Exact(inner) => Ok(ids_that_meet(alloc, entries, terms, inner, true)?),
        ConditionKind::Always => Ok(all_ids(alloc, entries, terms)?),
        ConditionKind::Has(field, test) => {
            Ok(ids_that_pass(alloc, entries, terms, field, test, exact)?)
        }
    }
}

/// The ids of the entries that meet a condition, in order. It finds them by the terms, and reads no entry.
///
/// A test costs what `Terms::range` costs. Other conditions cost a walk over the ids that their parts find; `not`, and a condition
/// that is always met, a walk over the ids of all entries.
pub fn matching<E: Entries>(
    alloc: Global,
    entries: &E,
    condition: &Condition,
) -> Result<Ids, NoMemory>
    ensures ids { IfOk result (λ ids. map folded ids ≡ map folded (ids_of (filter (λ e. meets condition.now false e.1) (E.entries entries.now)))) }
    ensures rising { AreInOrder (ids_of (E.entries entries.now)) }
{
    let terms = entries.terms();
    Ok(ids_that_meet(alloc, entries, terms, condition, false)?)
}

/// How many entries have another answer to a condition on one field than an entry without that field, if that is known without a
/// walk.
fn count_differing<E: Entries>(
    alloc: Global,
    entries: &E,
    terms: &Terms,
    condition: &Condition,
    field: &Text,
    missing: bool,
) -> Result<Option<u64>, NoMemory>
    requires terms { AreTermsOf (E.entries entries.now) terms.now }
    requires field { one.is_on field.now condition.now ≡ true }
    requires missing { missing ≡ one.met_by condition.now false None }
    ensures { IfOk result (λ count. IfSome count (λ n. n ≡ length (filter (λ e. one.differs missing (meets condition.now false e.1)) (E.entries entries.now)))) }
{
    let mut tests = Vec::new(alloc);
    add_tests(condition, false, &mut tests)?;
    let differing = Differing { condition, missing };
    Ok(terms.count(alloc, field.as_str(), &tests, &differing)?)
}

/// How many entries meet a condition on one field, if that is known without a walk.
///
/// The terms have the values of the field, and not the entries that lack it. So they count the entries whose answer is another one than
/// without the field: if such an entry meets the condition, these are those that do not.
fn count_on<E: Entries>(
    alloc: Global,
    entries: &E,
    terms: &Terms,
    condition: &Condition,
    field: &Text,
) -> Result<Option<u64>, NoMemory>
    requires terms { AreTermsOf (E.entries entries.now) terms.now }
    requires field { one.is_on field.now condition.now ≡ true }
    ensures { IfOk result (λ count. IfSome count (λ n. n ≡ length (filter (λ e. meets condition.now false e.1) (E.entries entries.now)))) }
{
    let missing = is_met_by(condition, false, None);
    let count = count_differing(alloc, entries, terms, condition, field, missing)?;
    if !missing {
        return Ok(count);
    }
    match count {
        Some(others) => Ok(Some(entries.len() - others)),
        None => Ok(None),
    }
}

/// How many entries meet a condition without tests, which all entries meet or none.
fn count_without_tests<E: Entries>(entries: &E, condition: &Condition) -> u64
    requires { one.tests_of condition.now false ≡ [] }
    ensures { result ≡ length (filter (λ e. meets condition.now false e.1) (E.entries entries.now)) }
{
    if is_met_by(condition, false, None) {
        entries.len()
    } else {
        0
    }
}

/// How many entries meet a condition, if that is known without a walk. It reads no entry.
///
/// No clause says when it is known. It usually is for a condition without tests, and for one whose tests are all on one field if
/// `Terms::count` counts these; `and`, `or`, `not` and `exact` may join them in any way.
pub fn count<E: Entries>(
    alloc: Global,
    entries: &E,
    condition: &Condition,
) -> Result<Option<u64>, NoMemory>
    ensures count { IfOk result (λ count. IfSome count (λ n. n ≡ length (filter (λ e. meets condition.now false e.1) (E.entries entries.now)))) }
    ensures rising { AreInOrder (ids_of (E.entries entries.now)) }
{
    let terms = entries.terms();
    match field_of(condition) {
        Some(field) if is_on(condition, field) => {
            Ok(count_on(alloc, entries, terms, condition, field)?)
        }
        Some(_) => Ok(None),
        None => Ok(Some(count_without_tests(entries, condition))),
    }
}
