//! The entries of ids.
ghost use Rattle.std.specs.Prelude.{◌≡◌, IfOk, length, map};
ghost use Rattle.rql_eval.specs.Pages.{ReadsAtMost, entries_of as spec_entries_of};

use map_stage::Entry;
use raven_base::{NoMemory, Steps};
use raven_value::Id;
use rql_filter::Reads;
use std::alloc::Global;
use std::sync::ledger::Ledger;

/// The entries of these ids, in the same order. An id without an entry is passed over.
pub fn entries_of<'e, E: Reads<L>, L: Ledger>(
    alloc: Global,
    entries: &'e E,
    ids: &[Id],
    steps: &mut Steps<L>,
) -> Result<Vec<(&'e Id, &'e Entry)>, NoMemory>
    ensures entries { IfOk result (λ found. map (λ e. (e.0.now, e.1.now)) found.items ≡ spec_entries_of (E.entries entries.now) ids.now) }
    ensures reads { ReadsAtMost (length ids.now) steps.old steps.new }
{
    let mut found = Vec::with_capacity(alloc, ids.len())?;
    for id in ids {
        if let Some(entry) = entries.entry_of(id, steps) {
            found.push(entry)?;
        }
    }
    Ok(found)
}
