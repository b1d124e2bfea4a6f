//! The rows of several indexes with one reduce, together.
ghost use Rattle.std.specs.Prelude.{◌≡◌, ◌<◌, ◌++◌, ◌^◌, IfOk, List, length, map};
ghost use Rattle.index_tree.specs.Meaning.{Fields};
ghost use Rattle.index_tree.specs.declared.reduce_query.ReduceQuery.{ReduceQuery};
ghost use Rattle.spec_index.specs.Rows.{reduced};
ghost use Rattle.index_groups.specs.Together.{AreBy, AreOfWords, all_entries, cells_of};

use crate::groups::IndexGroups;
use crate::key::GroupKey;
use crate::row::rows_of;
use map_stage::Entry;
use raven_base::{Exact, NoMemory, Sequence};
use reduce_folds::{Cells, HasFields};
use std::alloc::Global;
use std::cmp::Ordering;

/// Adds copies of these groups.
fn add_all(groups: &mut Vec<(GroupKey, Cells)>, more: &[(GroupKey, Cells)]) -> Result<(), NoMemory>
    ensures { IfOk result (λ _. groups.new.items ≡ groups.old.items ++ more.now) }
{
    for group in more {
        groups.push((group.0.clone()?, group.1.clone()?))?;
    }
    Ok(())
}

/// Two lists of groups as one. The cells of a key that both have are merged.
fn merged(
    alloc: Global,
    a: &[(GroupKey, Cells)],
    b: &[(GroupKey, Cells)],
) -> Result<Vec<(GroupKey, Cells)>, NoMemory>
    ensures { IfOk result (λ groups. (query : ReduceQuery) (es fs : List Fields) → a.now ≡ cells_of query es → b.now ≡ cells_of query fs → groups.items ≡ cells_of query (es ++ fs)) }
{
    let mut groups = Vec::new(alloc);
    let mut at = 0;
    let mut by = 0;
    while at < a.len() && by < b.len() {
        let mine = &a[at];
        let other = &b[by];
        match mine.0.cmp(&other.0) {
            Ordering::Less => {
                groups.push((mine.0.clone()?, mine.1.clone()?))?;
                at += 1;
            }
            Ordering::Equal => {
                groups.push((mine.0.clone()?, mine.1.together(alloc, &other.1)?))?;
                at += 1;
                by += 1;
            }
            Ordering::Greater => {
                groups.push((other.0.clone()?, other.1.clone()?))?;
                by += 1;
            }
        }
    }
    add_all(&mut groups, &a[at..])?;
    add_all(&mut groups, &b[by..])?;
    Ok(groups)
}

/// The groups of all entries of these parts. Each half of the parts is merged by itself first, so a group goes through few merges.
fn groups_together<E: HasFields + Exact + Drop>(
    alloc: Global,
    parts: &[&IndexGroups<E>],
) -> Result<Vec<(GroupKey, Cells)>, NoMemory>
    ensures groups { IfOk result (λ groups. (query : ReduceQuery) → AreBy query (map (λ p. p.now) parts.now) → groups.items ≡ cells_of query (all_entries (map (λ p. p.now) parts.now))) }
    ensures words { IfOk result (λ _. AreOfWords (all_entries (map (λ p. p.now) parts.now))) }
{
    match parts {
        [] => Ok(Vec::new(alloc)),
        [part] => part.groups(alloc),
        _ => {
            let (front, back) = parts.split_at(parts.len() / 2);
            let a = groups_together(alloc, front)?;
            let b = groups_together(alloc, back)?;
            merged(alloc, &a, &b)
        }
    }
}

/// The rows that the reduce gives for all entries of these parts, which have one reduce, in the order of their keys.
///
/// What the fields of a group come to in each part is merged, and a row is made of that. No entry is looked at again.
pub fn rows_together<E: HasFields + Exact + Drop>(
    alloc: Global,
    parts: &[&IndexGroups<E>],
) -> Result<Sequence<Entry>, NoMemory>
    ensures { IfOk result (λ rows. (query : ReduceQuery) → AreBy query (map (λ p. p.now) parts.now) → length (all_entries (map (λ p. p.now) parts.now)) < 2 ^ 64 →
        rows ≡ reduced query (all_entries (map (λ p. p.now) parts.now))) }
{
    let Some(first) = parts.first() else {
        return Ok(Sequence::new(alloc));
    };
    let groups = groups_together(alloc, parts)?;
    rows_of(alloc, first.plan(), groups)
}
