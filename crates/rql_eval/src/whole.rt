//! What a query finds in a whole collection.
ghost use Rattle.std.specs.Prelude.{◌≡◌, [], IfOk, List, drop, length};
ghost use Rattle.spec_query.specs.Condition.{Always};
ghost use Rattle.spec_data.specs.Rows as spec_rows;
ghost use Rattle.spec_query.specs.Finding.{find_entries};
ghost use Rattle.spec_query.specs.Plan.{up_to};
ghost use Rattle.rql_eval.specs.FoundView.{found_view};
ghost use Rattle.rql_eval.specs.Rows.{ids_of_rows, without_fields};

use crate::finding::Found;
use map_stage::Lookup;
use raven_base::{NoMemory, Shared};
use raven_value::{Ids, Row};
use rql_plan::Plan;
use rql_results::{Show, documents_of, included, results_of};
use std::alloc::Global;

fn ids_of(alloc: Global, rows: &[Shared<Row>]) -> Result<Ids, NoMemory>
    ensures { IfOk result (λ ids. ids ≡ ids_of_rows rows.now) }
{
    let mut ids = Ids::new(alloc);
    for row in rows {
        ids.push(row.get().id.clone()?)?;
    }
    Ok(ids)
}

/// What a query without a condition and without an order finds among some documents, which stand in the order of their ids. It
/// takes how many documents there are, and the page of them that the query asks for, so that it looks at no others. `rows` are those of
/// the store from which the documents come.
pub fn find_all<T: Lookup, W: Show>(
    alloc: Global,
    plan: &Plan,
    page: &[Shared<Row>],
    total: u64,
    rows: &T,
    show: &W,
) -> Result<Found, NoMemory>
    requires condition { plan.now.condition ≡ Always }
    requires order { plan.now.order ≡ [] }
    ensures { IfOk result (λ found. (documents : List spec_rows.Row) → page.now ≡ up_to plan.now.size (drop plan.now.start documents) → total ≡ length documents → found_view found ≡ find_entries (W.shown show.now) (T.rows rows.now) plan.now (without_fields documents)) }
{
    let ids = ids_of(alloc, page)?;
    let found = documents_of(alloc, rows, ids.as_slice())?;
    let results = results_of(alloc, show, &found, plan.columns())?;
    let includes = included(alloc, rows, show, &found, plan.includes())?;
    Ok(Found {
        ids,
        total,
        results,
        includes,
    })
}
