//! The ids of the entries that meet a condition, in the order of the field of its tests.
ghost use Rattle.std.specs.Prelude.{◌≡◌, IfOk, IfSome, Some, drop, false, filter, map, take, true};
ghost use Rattle.spec_data.specs.Folding.{folded};
ghost use Rattle.spec_query.specs.Condition.{meets};
ghost use Rattle.spec_query.specs.Sorting.{key_order, sorted};
ghost use Rattle.term_index.specs.Ordered.{by_value, values_named};
ghost use Rattle.rql_filter.specs.Entries.{AreTermsOf, ids_of};
ghost use Rattle.rql_filter.specs.OneField as one;

use crate::entries::Entries;
use crate::one_field::{Differing, add_tests, is_met_by, is_on};
use raven_base::NoMemory;
use raven_value::{Ids, Text};
use rql_plan::{Condition, SortKey};
use std::alloc::Global;
use term_index::{Terms, ValueOrder};

/// Whether it is known without a walk that each entry that meets a condition on this field has a value in it.
fn is_known_of_values<E: Entries>(
    entries: &E,
    terms: &Terms,
    condition: &Condition,
    field: &Text,
) -> bool
    requires terms { AreTermsOf (E.entries entries.now) terms.now }
    requires field { one.is_on field.now condition.now ≡ true }
    ensures { result ≡ true → filter (λ v. one.met_by condition.now false (Some v.1)) (values_named field.now terms.now)
        ≡ map (one.with_value field.now) (filter (λ e. meets condition.now false e.1) (E.entries entries.now)) }
{
    !is_met_by(condition, false, None) || terms.len_of(field.as_str()) == entries.len()
}

/// The ids whose values in the field of a key meet a condition on one field, in the order of the key: those after the first `start`,
/// `size` at most. None if the terms are not in that order.
fn ids_of_values(
    alloc: Global,
    terms: &Terms,
    condition: &Condition,
    key: &SortKey,
    start: u64,
    size: u64,
) -> Result<Option<Ids>, NoMemory>
    ensures { IfOk result (λ found. IfSome found (λ ids.
        map folded ids ≡ map (λ v. v.0) (take size (drop start (sorted (by_value key.now.long key.now.desc)
        (filter (λ v. one.met_by condition.now false (Some v.1)) (values_named key.now.field terms.now))))))) }
{
    let mut tests = Vec::new(alloc);
    add_tests(condition, false, &mut tests)?;
    let met = Differing {
        condition,
        missing: false,
    };
    let order = ValueOrder {
        long: key.long,
        desc: key.desc,
    };
    Ok(terms.in_order(alloc, key.field.as_str(), &tests, &met, order, start, size)?)
}

/// Of the ids of the entries that meet a condition, in the order of one key, those after the first `start`, `size` at most. It finds
/// them by the terms, and reads no entry.
///
/// No clause says when there are ids. Usually there are none only if the terms do not give them: if a test of the condition is not on the
/// field of the key; if an entry without that field meets the condition, and there are such entries; or if the terms are not in the
/// order of the key, as `Terms::in_order` says.
pub fn matching_in_order<E: Entries>(
    alloc: Global,
    entries: &E,
    condition: &Condition,
    key: &SortKey,
    start: u64,
    size: u64,
) -> Result<Option<Ids>, NoMemory>
    ensures { IfOk result (λ found. IfSome found (λ ids.
        map folded ids ≡ map folded (ids_of (take size (drop start (sorted (λ a b. key_order key.now a.1 b.1)
        (filter (λ e. meets condition.now false e.1) (E.entries entries.now)))))))) }
{
    let terms = entries.terms();
    let field = &key.field;
    if is_on(condition, field) && is_known_of_values(entries, terms, condition, field) {
        Ok(ids_of_values(alloc, terms, condition, key, start, size)?)
    } else {
        Ok(None)
    }
}
