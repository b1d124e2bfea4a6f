//! The rows of several indexes together.
ghost use Rattle.std.specs.Prelude.{◌≡◌, ◌<◌, ◌^◌, IfOk, length, map};
ghost use Rattle.index_tree.specs.declared.reduce_query.ReduceQuery.{ReduceQuery};
ghost use Rattle.spec_index.specs.Rows.{reduced};
ghost use Rattle.index_version.specs.Together.{AreIn, HaveReduce, entries_together};

use crate::regrouping::GivenGroups;
use crate::version::IndexVersion;
use map_stage::Entry;
use raven_base::{NoMemory, Sequence};
use std::alloc::Global;

/// How many entries they have together. No memory has 2^64 entries.
fn count(versions: &[&IndexVersion]) -> Result<u64, NoMemory>
    ensures count { IfOk result (λ count. count ≡ length (entries_together (map (λ v. v.now.version) versions.now))) }
    ensures few { IfOk result (λ count. count < 2 ^ 64) }
{
    let mut count: u64 = 0;
    for version in versions {
        count = count.checked_add(version.entries()).ok_or(NoMemory)?;
    }
    Ok(count)
}

/// The groups of those that have groups.
fn groups_of<'a>(
    alloc: Global,
    versions: &[&'a IndexVersion],
) -> Result<Vec<&'a GivenGroups>, NoMemory>
    ensures { IfOk result (λ groups. AreIn (map (λ g. g.now) groups.items) (map (λ v. v.now.version) versions.now)) }
{
    let mut groups = Vec::new(alloc);
    for version in versions {
        if let Some(own) = version.given_groups() {
            groups.push(own)?;
        }
    }
    Ok(groups)
}

/// The rows that a reduce gives for all entries of these indexes, in the order of their keys, if it is the reduce of each of them.
///
/// What they have in groups is merged, group by group. No entry is looked at again.
pub fn rows_together(alloc: Global, versions: &[&IndexVersion]) -> Result<Sequence<Entry>, NoMemory>
    ensures { IfOk result (λ rows. (query : ReduceQuery) → HaveReduce query (map (λ v. v.now.version) versions.now) → rows ≡ reduced query (map (λ e. e.1) (entries_together (map (λ v. v.now.version) versions.now)))) }
{
    // The proof needs it: the entries can be counted, so sums are exact.
    let _count = count(versions)?;
    let groups = groups_of(alloc, versions)?;
    index_groups::rows_together(alloc, &groups)
}
