//! The entries of a page.
ghost use Rattle.std.specs.Prelude.{◌≡◌, [], IfOk, drop, length, map};
ghost use Rattle.spec_query.specs.Plan.{meeting, page, up_to};
ghost use Rattle.spec_query.specs.Sorting.{keys_order, sorted};
ghost use Rattle.rql_eval.specs.Pages.{IsPage, ReadsAtMost, entries_of as spec_entries_of};

use crate::ordered::ids_in_order;
use crate::reading::entries_of;
use crate::walk::walked_page;
use map_stage::Entry;
use raven_base::{NoMemory, Steps};
use raven_value::Id;
use rql_filter::{Reads, count, matching};
use rql_order::in_order;
use rql_plan::Plan;
use std::alloc::Global;
use std::sync::ledger::Ledger;

/// The entries of a page, each with its id, and how many entries meet the condition of its query.
#[derive(Drop)]
pub struct Page<'e> {
    pub entries: Vec<(&'e Id, &'e Entry)>,
    pub total: u64,
}

/// The items without the first `start` of them, and of those that are left `size` at most.
pub fn cut<T>(items: &[T], start: u64, size: Option<u64>) -> &[T]
    ensures { result.now ≡ up_to size (drop start items.now) }
{
    let start = (items.len() as u64).min(start) as usize;
    let rest = &items[start..];
    match size {
        None => rest,
        Some(size) => {
            let end = (rest.len() as u64).min(size) as usize;
            &rest[..end]
        }
    }
}

/// The entries of the page of these ids, in their order.
fn plain_page<'e, E: Reads<L>, L: Ledger>(
    alloc: Global,
    plan: &Plan,
    entries: &'e E,
    ids: &[Id],
    steps: &mut Steps<L>,
) -> Result<Vec<(&'e Id, &'e Entry)>, NoMemory>
    ensures entries { IfOk result (λ found. map (λ e. (e.0.now, e.1.now)) found.items ≡ spec_entries_of (E.entries entries.now) (up_to plan.now.size (drop plan.now.start ids.now))) }
    ensures reads { ReadsAtMost (length (up_to plan.now.size (drop plan.now.start ids.now))) steps.old steps.new }
{
    entries_of(alloc, entries, cut(ids, plan.start(), plan.size()), steps)
}

/// The entries of these ids in the order of the plan, of which those of its page alone are kept.
fn cut_in_order<'e, E: Reads<L>, L: Ledger>(
    alloc: Global,
    plan: &Plan,
    entries: &'e E,
    ids: &[Id],
    steps: &mut Steps<L>,
) -> Result<Vec<(&'e Id, &'e Entry)>, NoMemory>
    ensures entries { IfOk result (λ found. map (λ e. (e.0.now, e.1.now)) found.items ≡ up_to plan.now.size (drop plan.now.start (sorted (λ a b. keys_order plan.now.order a.1 b.1) (spec_entries_of (E.entries entries.now) ids.now)))) }
    ensures reads { ReadsAtMost (length ids.now) steps.old steps.new }
{
    let found = entries_of(alloc, entries, ids, steps)?;
    let ordered = in_order(alloc, plan.order(), found)?;
    Ok(Vec::from_slice(alloc, cut(&ordered, plan.start(), plan.size()))?)
}

/// The page of a query without an order. Its entries alone are read.
fn gathered_page<'e, E: Reads<L>, L: Ledger>(
    alloc: Global,
    plan: &Plan,
    entries: &'e E,
    steps: &mut Steps<L>,
) -> Result<Page<'e>, NoMemory>
    requires { plan.now.order ≡ [] }
    ensures page { IfOk result (IsPage plan.now (E.entries entries.now)) }
    ensures reads { ReadsAtMost (length (page plan.now (E.entries entries.now))) steps.old steps.new }
{
    let ids = matching(alloc, entries, plan.condition())?;
    let entries = plain_page(alloc, plan, entries, ids.as_slice(), steps)?;
    Ok(Page {
        entries,
        total: ids.len() as u64,
    })
}

/// The page of a query without an order: from a walk over the entries, if that is short, or else from the ids of all that meet the
/// condition.
fn page_by_id<'e, E: Reads<L>, L: Ledger>(
    alloc: Global,
    plan: &Plan,
    entries: &'e E,
    steps: &mut Steps<L>,
) -> Result<Page<'e>, NoMemory>
    requires { plan.now.order ≡ [] }
    ensures page { IfOk result (IsPage plan.now (E.entries entries.now)) }
    ensures reads { ReadsAtMost (length (meeting plan.now (E.entries entries.now))) steps.old steps.new }
{
    let Some(total) = count(alloc, entries, plan.condition())? else {
        return gathered_page(alloc, plan, entries, steps);
    };
    match walked_page(alloc, plan, entries, total, steps)? {
        Some(entries) => Ok(Page { entries, total }),
        None => gathered_page(alloc, plan, entries, steps),
    }
}

/// The page of a query, from the sorted entries of all that meet the condition.
fn sorted_page<'e, E: Reads<L>, L: Ledger>(
    alloc: Global,
    plan: &Plan,
    entries: &'e E,
    steps: &mut Steps<L>,
) -> Result<Page<'e>, NoMemory>
    ensures page { IfOk result (IsPage plan.now (E.entries entries.now)) }
    ensures reads { ReadsAtMost (length (meeting plan.now (E.entries entries.now))) steps.old steps.new }
{
    let ids = matching(alloc, entries, plan.condition())?;
    let total = ids.len() as u64;
    let entries = cut_in_order(alloc, plan, entries, ids.as_slice(), steps)?;
    Ok(Page { entries, total })
}

/// The page of a query with an order: from the terms of a field, if they have that order, or else from all entries that meet the
/// condition.
fn page_by_order<'e, E: Reads<L>, L: Ledger>(
    alloc: Global,
    plan: &Plan,
    entries: &'e E,
    steps: &mut Steps<L>,
) -> Result<Page<'e>, NoMemory>
    ensures page { IfOk result (IsPage plan.now (E.entries entries.now)) }
    ensures reads { ReadsAtMost (length (meeting plan.now (E.entries entries.now))) steps.old steps.new }
{
    let Some(total) = count(alloc, entries, plan.condition())? else {
        return sorted_page(alloc, plan, entries, steps);
    };
    let Some(ids) = ids_in_order(alloc, plan, entries, total)? else {
        return sorted_page(alloc, plan, entries, steps);
    };
    let entries = entries_of(alloc, entries, ids.as_slice(), steps)?;
    Ok(Page { entries, total })
}

/// The page that a query asks for, and how many entries meet its condition.
///
/// No clause says more of the reads than that they are no more than entries meet the condition. Usually it goes so:
///
/// If the query asks for no order, an entry is read only if the page has it; or entries are walked from the first on, if it is known
/// without a walk how many meet the condition, and then no more are read than meet it.
///
/// If it asks for an order by one field, the entries of the page alone are read, each once, if three things hold: all tests of its
/// condition, if it has any, are on that field, whatever joins them; no entry without a value in that field meets it, or each entry
/// has one; and the terms of the field are in that order, as `Terms::in_order` says. In any other order the entries that meet the
/// condition are read, each once, and sorted.
pub fn page_of<'e, E: Reads<L>, L: Ledger>(
    alloc: Global,
    plan: &Plan,
    entries: &'e E,
    steps: &mut Steps<L>,
) -> Result<Page<'e>, NoMemory>
    ensures entries { IfOk result (λ found. map (λ e. (e.0.now, e.1.now)) found.entries.items ≡ page plan.now (E.entries entries.now)) }
    ensures total { IfOk result (λ found. found.total ≡ length (meeting plan.now (E.entries entries.now))) }
    ensures reads { ReadsAtMost (length (meeting plan.now (E.entries entries.now))) steps.old steps.new }
{
    if plan.order().is_empty() {
        page_by_id(alloc, plan, entries, steps)
    } else {
        page_by_order(alloc, plan, entries, steps)
    }
}
