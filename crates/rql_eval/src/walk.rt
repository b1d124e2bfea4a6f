//! Pages without an order, from a walk over the entries.
ghost use Rattle.std.specs.Prelude.{◌≡◌, ◌<◌, ◌-◌, ◌++◌, ◌∷◌, [], List, IfOk, IfSome, OnOk, false, cond, drop, filter, length, map, take};
ghost use Rattle.spec_data.specs.Rows as spec_rows;
ghost use Rattle.spec_query.specs.Condition.{meets};
ghost use Rattle.spec_query.specs.Plan.{meeting, page, up_to};
ghost use Rattle.reference_track.specs.Sets.{AreInOrder};
ghost use Rattle.rql_filter.specs.Entries.{EntryList, ids_of};
ghost use Rattle.rql_eval.specs.Pages.{ReadsAtMost};

use crate::rows::is_met;
use map_stage::Entry;
use raven_base::{NoMemory, Steps};
use raven_value::Id;
use rql_filter::Reads;
use rql_plan::{Condition, Plan};
use std::alloc::Global;
use std::sync::ledger::Ledger;

/// If an entry is met, it is one of the first `skip`, which are left out, or the next of the page, which wants `want` more.
fn add_if<'e>(
    met: bool,
    entry: (&'e Id, &'e Entry),
    found: &mut Vec<(&'e Id, &'e Entry)>,
    skip: &mut u64,
    want: &mut u64,
) -> Result<(), NoMemory>
    requires { 0 < want.now }
    ensures { OnOk result ((more : EntryList) → map (λ e. (e.0.now, e.1.now)) found.old.items ++ take want.old (drop skip.old (cond met ((entry.entry.0.now, entry.entry.1.now) ∷ more) more)) ≡ map (λ e. (e.0.now, e.1.now)) found.new.items ++ take want.new (drop skip.new more)) }
{
    if met && *skip > 0 {
        *skip -= 1;
    } else if met {
        found.push(entry)?;
        *want -= 1;
    }
    Ok(())
}

/// Of the entries that meet a condition, `size` at most after the first `start`. It reads `most` entries at most, and gives nothing
/// if these are not enough.
fn walked<'e, E: Reads<L>, L: Ledger>(
    alloc: Global,
    condition: &Condition,
    entries: &'e E,
    start: u64,
    size: u64,
    most: u64,
    steps: &mut Steps<L>,
) -> Result<Option<Vec<(&'e Id, &'e Entry)>>, NoMemory>
    requires { AreInOrder (ids_of (E.entries entries.now)) }
    ensures entries { IfOk result (λ page. IfSome page (λ found. map (λ e. (e.0.now, e.1.now)) found.items ≡ take size (drop start (filter (λ e. meets condition.now false e.1) (E.entries entries.now))))) }
    ensures reads { ReadsAtMost most steps.old steps.new }
{
    let mut found = Vec::new(alloc);
    let mut skip = start;
    let mut want = size;
    let mut left = most;
    let mut last = None;
    while want > 0 {
        if left == 0 {
            return Ok(None);
        }
        left -= 1;
        let Some((id, entry)) = entries.entry_after(last, steps) else {
            return Ok(Some(found));
        };
        let met = is_met(condition, false, entry);
        add_if(met, (id, entry), &mut found, &mut skip, &mut want)?;
        last = Some(id);
    }
    Ok(Some(found))
}

/// How many entries or documents are on the page, if so many meet the condition. So many after the first `start` of those that meet it are
/// the page.
pub fn page_len(plan: &Plan, total: u64) -> u64
    ensures entries { (found : EntryList) → total ≡ length found → length (up_to plan.now.size (drop plan.now.start found)) ≡ result }
    ensures rows { (found : List spec_rows.Row) → total ≡ length found → take result (drop plan.now.start found) ≡ up_to plan.now.size (drop plan.now.start found) }
{
    let rest = total.saturating_sub(plan.start());
    match plan.size() {
        Some(size) => rest.min(size),
        None => rest,
    }
}

/// The page of a query without an order, if it is known how many entries meet the condition, and if a walk over the entries comes to
/// the end of the page before it has read more of them than meet the condition.
///
/// Nothing is read if the walk is not expected to come to that end. So it is usually tried only where it succeeds; no clause says when
/// there is a page.
pub fn walked_page<'e, E: Reads<L>, L: Ledger>(
    alloc: Global,
    plan: &Plan,
    entries: &'e E,
    total: u64,
    steps: &mut Steps<L>,
) -> Result<Option<Vec<(&'e Id, &'e Entry)>>, NoMemory>
    requires order { plan.now.order ≡ [] }
    requires rising { AreInOrder (ids_of (E.entries entries.now)) }
    requires total { total ≡ length (meeting plan.now (E.entries entries.now)) }
    ensures entries { IfOk result (λ walked. IfSome walked (λ found. map (λ e. (e.0.now, e.1.now)) found.items ≡ page plan.now (E.entries entries.now))) }
    ensures reads { ReadsAtMost (total - length (page plan.now (E.entries entries.now))) steps.old steps.new }
{
    let size = page_len(plan, total);
    let most = total.saturating_sub(size);
    // So many entries are read if those that meet the condition are spread evenly. A walk that reads many more is given up.
    let end = plan.start().saturating_add(size);
    let expected = end.saturating_mul(entries.walk_len()) / total.max(1);
    if expected > most {
        return Ok(None);
    }
    let limit = most.min(expected.saturating_mul(4).saturating_add(64));
    let found = walked(
        alloc,
        plan.condition(),
        entries,
        plan.start(),
        size,
        limit,
        steps,
    )?;
    Ok(found)
}
