//! What a query finds among the rows of a reduce.
ghost use Rattle.std.specs.Prelude.{◌≡◌, IfOk, false, filter, map};
ghost use Rattle.spec_query.specs.Condition.{meets, passes};
ghost use Rattle.spec_query.specs.Finding.{find_rows};
ghost use Rattle.rql_eval.specs.FoundView.{found_view};
ghost use Rattle.rql_eval.specs.Rows.{without_ids};
ghost use Rattle.raven_value.specs.ScalarView.{test_view};
ghost use Rattle.index_tree.specs.Meaning.{field_named};

use crate::finding::Found;
use crate::page::cut;
use map_stage::{Entry, Lookup};
use raven_base::NoMemory;
use raven_value::{Ids, Test, Text, matches};
use rql_order::in_order;
use rql_plan::{Condition, ConditionKind, Plan};
use rql_results::{Show, included_by_rows, results_of_rows};
use std::alloc::Global;

// A field that the row lacks meets no test.
fn passes(row: &Entry, field: &Text, test: &Test, exact: bool) -> bool
    ensures { result ≡ passes (test_view test.now) exact (field_named field.now row.now) }
{
    match row.get(field.as_str()) {
        Some(value) => matches(test, exact, value),
        None => false,
    }
}

/// Whether a row meets a condition. Texts are compared by their bytes if it is inside an `exact`.
pub(crate) fn is_met(condition: &Condition, exact: bool, row: &Entry) -> bool
    ensures { result ≡ meets condition.now exact row.now }
{
    match condition.kind() {
        ConditionKind::Or(left, right) => is_met(left, exact, row) || is_met(right, exact, row),
        ConditionKind::And(left, right) => is_met(left, exact, row) && is_met(right, exact, row),
        ConditionKind::Not(inner) => !is_met(inner, exact, row),
        ConditionKind::Exact(inner) => is_met(inner, true, row),
        ConditionKind::Always => true,
        ConditionKind::Has(field, test) => passes(row, field, test, exact),
    }
}

fn meeting<'e>(
    alloc: Global,
    condition: &Condition,
    rows: &'e [Entry],
) -> Result<Vec<((), &'e Entry)>, NoMemory>
    ensures { IfOk result (λ found. map (λ r. r.1.now) found.items ≡ filter (meets condition.now false) rows.now) }
{
    let mut found = Vec::new(alloc);
    for row in rows {
        if is_met(condition, false, row) {
            found.push(((), row))?;
        }
    }
    Ok(found)
}

// The rows without the places for their ids, which they have not.
fn entries_in<'e>(alloc: Global, rows: &[((), &'e Entry)]) -> Result<Vec<&'e Entry>, NoMemory>
    ensures { IfOk result (λ entries. map (λ r. r.now) entries.items ≡ map (λ r. r.1.now) rows.now) }
{
    let mut entries = Vec::with_capacity(alloc, rows.len())?;
    for row in rows {
        entries.push(row.1)?;
    }
    Ok(entries)
}

/// What a query finds among the rows of a reduce, which stand in the order of their keys. `documents` are the rows of the store
/// from which included documents come.
///
/// It walks over all rows once.
pub fn find_in_rows<T: Lookup, W: Show>(
    alloc: Global,
    plan: &Plan,
    rows: &[Entry],
    documents: &T,
    show: &W,
) -> Result<Found, NoMemory>
    ensures { IfOk result (λ found. found_view found ≡ find_rows (W.shown show.now) (T.rows documents.now) plan.now (without_ids rows.now)) }
{
    let met = meeting(alloc, plan.condition(), rows)?;
    let total = met.as_slice().len() as u64;
    let ordered = in_order(alloc, plan.order(), met)?;
    let page = entries_in(alloc, cut(&ordered, plan.start(), plan.size()))?;
    let results = results_of_rows(alloc, &page, plan.columns())?;
    let includes = included_by_rows(alloc, documents, show, &page, plan.includes())?;
    Ok(Found {
        ids: Ids::new(alloc),
        total,
        results,
        includes,
    })
}
