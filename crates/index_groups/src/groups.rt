//! The groups.
ghost use Rattle.std.specs.Prelude.{◌≡◌, ◌≤◌, ◌+◌, ◌*◌, ℕ, IfOk, length, map};
ghost use Rattle.std.specs.FinMap.{empty, values};
ghost use Rattle.std.specs.List.{slice_get};
ghost use Rattle.paged_map.specs.Merges.{MergesAtMost};
ghost use Rattle.spec_index.specs.Rows.{reduced};
ghost use Rattle.index_groups.specs.Cells.{plan_of};
ghost use Rattle.index_groups.specs.Together.{AreOfWords, cells_of};
ghost use Rattle.index_groups.specs.Groups.{AreNew, AreSmall, AreThere, HaveWords, fields_of, with_all, without_all};
ghost use Rattle.index_groups.specs.Trees.{insertion, removal};

use crate::key::{GroupKey, key_of};
use crate::plan::{RowField, folds_of, plan_of};
use crate::query::copied;
use crate::row::{row_of, rows_of};
use index_tree::ReduceQuery;
use map_stage::Entry;
use raven_base::{Exact, NoMemory, Sequence, Shared, Steps};
use raven_value::{Id, Text};
use reduce_folds::{Cells, HasFields, RowFold};
use reduce_groups::Groups;
use std::alloc::{AllocError, Global};
use std::marker::Model;
use std::sync::ledger::Ledger;

/// The entries of documents, in groups by the key of a reduce, with what the fields of each group come to. Contracts see the
/// reduce, and the entries as the map from the folded ids of the documents to their fields.
///
/// `E` is what has the fields of an entry. A change gives new groups and leaves the old ones as they were. The two share all that
/// did not change.
pub struct IndexGroups<E: HasFields> {
    query: Shared<ReduceQuery>,
    plan: Shared<Sequence<RowField>>,
    groups: Groups<GroupKey, Id, E, RowFold>,
}

// Opaque drop: see raven_base.
impl<E: HasFields + Drop> Drop for IndexGroups<E> {
    fn drop(self) {
        let IndexGroups {
            query: _query,
            plan: _plan,
            groups: _groups,
        } = self;
    }
}

impl<E: HasFields> Model for IndexGroups<E> {
    ghost use Rattle.index_groups.specs.Groups.{Grouped, grouped_code};

    ghost Value = { Grouped };

    ghost coded = { grouped_code };

    ghost use Rattle.std.specs.Prelude.{◌≡◌};
    ghost use Rattle.index_groups.specs.Cells.{plan_of};
    ghost use Rattle.index_groups.specs.Trees.{AreIndexed, entries_in};

    ghost view = { λ a. record { query = a.query; entries = entries_in E.fields a.groups.trees } };

    ghost invariant = { λ a. (a.plan ≡ plan_of a.query) × AreIndexed a.query E.fields a.groups.fold a.groups.trees };
}

/// A clone shares all groups, and takes no memory.
impl<E: HasFields + Drop> Clone for IndexGroups<E> {
    ghost is_clone = { λ groups copy. copy ≡ groups };

    fn clone(&self) -> Result<IndexGroups<E>, AllocError> {
        Ok(IndexGroups {
            query: self.query.clone()?,
            plan: self.plan.clone()?,
            groups: self.groups.clone()?,
        })
    }
}

/// Each of these ids, with the key of the group that its entry is in.
fn removals<E: HasFields + Drop>(
    alloc: Global,
    names: &[Text],
    gone: Vec<(Id, E)>,
) -> Result<Vec<(GroupKey, Id)>, NoMemory>
    ensures { IfOk result (λ keyed. keyed.items ≡ map (removal names.now E.fields) gone.items) }
{
    let mut keyed = Vec::new(alloc);
    for pair in gone {
        let (id, entry) = pair;
        let key = key_of(alloc, names, &entry)?;
        keyed.push((key, id))?;
    }
    Ok(keyed)
}

/// Each of these entries, with the key of its group.
fn insertions<E: HasFields + Drop>(
    alloc: Global,
    names: &[Text],
    come: Vec<(Id, E)>,
) -> Result<Vec<(GroupKey, (Id, E))>, NoMemory>
    ensures { IfOk result (λ keyed. keyed.items ≡ map (insertion names.now E.fields) come.items) }
{
    let mut keyed = Vec::new(alloc);
    for pair in come {
        let key = key_of(alloc, names, &pair.1)?;
        keyed.push((key, pair))?;
    }
    Ok(keyed)
}

impl<E: HasFields + Exact + Drop> IndexGroups<E> {
    /// The groups of no entries.
    pub fn new(alloc: Global, query: &ReduceQuery) -> Result<IndexGroups<E>, NoMemory>
        ensures { IfOk result (λ groups. groups ≡ record { query = query.now; entries = empty }) }
    {
        let names = query.key.as_slice();
        let members = query.members.as_slice();
        let fields = folds_of(alloc, members)?;
        let plan = plan_of(alloc, names, fields.as_slice(), members)?;
        let fold = Shared::of(alloc, RowFold { fields })?;
        let copy = copied(alloc, query)?;
        Ok(IndexGroups {
            query: Shared::of(alloc, copy)?,
            plan: Shared::of(alloc, plan)?,
            groups: Groups::new(alloc, fold)?,
        })
    }

    /// The groups once some entries have gone, each of which is there as it is given, and then others have come, of ids that
    /// have none.
    ///
    /// It takes time that grows with the number of these entries, times the logarithm of the number of all. Merges are made
    /// only on the way from each of them to the root of the tree of its group.
    pub fn changed<L: Ledger>(
        &self,
        alloc: Global,
        gone: Vec<(Id, E)>,
        come: Vec<(Id, E)>,
        steps: &mut Steps<L>,
    ) -> Result<IndexGroups<E>, NoMemory>
        requires there { AreThere self.now.entries (fields_of E.fields gone.items) }
        requires new { AreNew (without_all self.now.entries (fields_of E.fields gone.items)) (fields_of E.fields come.items) }
        requires words { HaveWords (fields_of E.fields come.items) }
        ensures query { IfOk result (λ groups. groups.query ≡ self.now.query) }
        ensures entries { IfOk result (λ groups. groups.entries ≡ with_all (without_all self.now.entries (fields_of E.fields gone.items)) (fields_of E.fields come.items)) }
        ensures merges { IfOk result (λ groups. (m h : ℕ) → length gone.items ≤ m → length come.items ≤ m → 1 ≤ h → AreSmall h self.now → AreSmall h groups → MergesAtMost (128 * m * (h + 1)) steps.old steps.new) }
        ensures maps { steps.new.maps ≡ steps.old.maps }
        ensures reads { steps.new.reads ≡ steps.old.reads }
    {
        let names = self.query.get().key.as_slice();
        let removed = removals(alloc, names, gone)?;
        let inserted = insertions(alloc, names, come)?;
        let groups = self.groups.changed(alloc, &removed, &inserted, steps)?;
        // The proof needs both: the groups are in the order of their keys.
        let _before = self.groups.len();
        let _after = groups.len();
        Ok(IndexGroups {
            query: self.query.clone()?,
            plan: self.plan.clone()?,
            groups,
        })
    }

    /// The rows that the reduce gives for the entries, in the order of their keys. It makes all of them.
    pub fn rows(&self, alloc: Global) -> Result<Sequence<Entry>, NoMemory>
        ensures { IfOk result (λ rows. rows ≡ reduced self.now.query (values self.now.entries)) }
    {
        let groups = self.groups.rows(alloc)?;
        // The proof needs it: the entries of a group can be counted, so sums are exact.
        let _groups = self.groups.len();
        let plan = self.plan.get().as_slice();
        Ok(rows_of(alloc, plan, groups)?)
    }
}

impl<E: HasFields + Exact + Drop> IndexGroups<E> {
    /// The cells of each group, under its key, in the order of the keys.
    pub(crate) fn groups(&self, alloc: Global) -> Result<Vec<(GroupKey, Cells)>, NoMemory>
        ensures groups { IfOk result (λ groups. groups.items ≡ cells_of self.now.query (values self.now.entries)) }
        ensures words { AreOfWords (values self.now.entries) }
    {
        // The proof needs it: the groups are in the order of their keys.
        let _groups = self.groups.len();
        self.groups.rows(alloc)
    }

    /// Where each field of a row comes from.
    pub(crate) fn plan(&self) -> &[RowField]
        ensures { result.now ≡ plan_of self.now.query }
    {
        self.plan.get().as_slice()
    }
}

impl<E: HasFields> IndexGroups<E> {
    /// How many rows there are.
    pub fn len(&self) -> u64
        ensures { result ≡ length (reduced self.now.query (values self.now.entries)) }
    {
        self.groups.len()
    }

    /// The row at a place in the order of the keys. There is none if there are no more rows than that.
    ///
    /// It walks to that place, and makes that row alone.
    pub fn row(&self, alloc: Global, place: u64) -> Result<Option<Entry>, NoMemory>
        ensures { IfOk result (λ row. row ≡ slice_get (reduced self.now.query (values self.now.entries)) place) }
    {
        // The proof needs it: the entries of a group can be counted, so sums are exact.
        let _groups = self.groups.len();
        match self.groups.nth(place) {
            Some((key, cells)) => {
                let plan = self.plan.get().as_slice();
                let row = row_of(alloc, plan, key, cells.as_slice())?;
                Ok(Some(row))
            }
            None => Ok(None),
        }
    }
}
