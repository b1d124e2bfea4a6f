//! What a query finds.
ghost use Rattle.std.specs.Prelude.{◌≡◌, IfOk, false, filter, length, map};
ghost use Rattle.spec_query.specs.Condition.{meets};
ghost use Rattle.spec_query.specs.Finding.{find_entries};
ghost use Rattle.spec_query.specs.Plan.{meeting};
ghost use Rattle.rql_eval.specs.FoundView.{found_view};
ghost use Rattle.rql_eval.specs.Pages.{ReadsAtMost};

use crate::page::page_of;
use crate::reading::entries_of;
use map_stage::{Entry, Lookup};
use raven_base::{NoMemory, Steps};
use raven_json::{ShownList, ShownMembers};
use raven_value::{Id, Ids};
use rql_filter::{Reads, matching};
use rql_plan::{Condition, Plan};
use rql_results::{Show, documents_of, included, results_of};
use std::alloc::Global;
use std::sync::ledger::Ledger;

/// What a query finds.
#[derive(Drop)]
pub struct Found {
    /// The ids of the entries of the page, also of those whose document is gone.
    pub ids: Ids,
    /// How many entries meet the condition.
    pub total: u64,
    /// What is shown of the documents of the page.
    pub results: ShownList,
    /// The included documents under their ids.
    pub includes: ShownMembers,
}

fn ids_of(alloc: Global, entries: &[(&Id, &Entry)]) -> Result<Ids, NoMemory>
    ensures { IfOk result (λ ids. ids ≡ map (λ e. e.0.now) entries.now) }
{
    let mut ids = Ids::new(alloc);
    for entry in entries {
        ids.push(entry.0.clone()?)?;
    }
    Ok(ids)
}

/// The ids of the entries that meet a condition, in order, as their documents spell them. It reads each of these entries once.
pub fn ids_that_meet<E: Reads<L>, L: Ledger>(
    alloc: Global,
    entries: &E,
    condition: &Condition,
    steps: &mut Steps<L>,
) -> Result<Ids, NoMemory>
    ensures ids { IfOk result (λ ids. ids ≡ map (λ e. e.0) (filter (λ e. meets condition.now false e.1) (E.entries entries.now))) }
    ensures reads { ReadsAtMost (length (filter (λ e. meets condition.now false e.1) (E.entries entries.now))) steps.old steps.new }
{
    let met = matching(alloc, entries, condition)?;
    let found = entries_of(alloc, entries, met.as_slice(), steps)?;
    let ids = ids_of(alloc, &found)?;
    Ok(ids)
}

/// What a query finds in an index without a reduce. `rows` are those of the store from which the documents come.
///
/// No more entries are read than meet the condition. What is read is said at `page_of`.
pub fn find<E: Reads<L>, T: Lookup, W: Show, L: Ledger>(
    alloc: Global,
    plan: &Plan,
    entries: &E,
    rows: &T,
    show: &W,
    steps: &mut Steps<L>,
) -> Result<Found, NoMemory>
    ensures found { IfOk result (λ found. found_view found ≡ find_entries (W.shown show.now) (T.rows rows.now) plan.now (E.entries entries.now)) }
    ensures reads { ReadsAtMost (length (meeting plan.now (E.entries entries.now))) steps.old steps.new }
{
    let page = page_of(alloc, plan, entries, steps)?;
    let ids = ids_of(alloc, &page.entries)?;
    let documents = documents_of(alloc, rows, ids.as_slice())?;
    let results = results_of(alloc, show, &documents, plan.columns())?;
    let includes = included(alloc, rows, show, &documents, plan.includes())?;
    Ok(Found {
        ids,
        total: page.total,
        results,
        includes,
    })
}
