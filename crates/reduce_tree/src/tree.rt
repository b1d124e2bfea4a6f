//! The tree.
ghost use Rattle.std.specs.Prelude.{◌≡◌, ◌↔◌, ◌≤◌, ◌+◌, ◌*◌, ℕ, [], map, length, IfOk, IsTrue, OnOk};
ghost use Rattle.std.specs.Option.{option_copied};
ghost use Rattle.std.specs.Map.{remove_entry};
ghost use Rattle.std.specs.BTreeMap.{insert_entry, is_at};
ghost use Rattle.paged_map.specs.Merges.{MergesAtMost};
ghost use Rattle.reduce_tree.specs.Changes.{changed, inserted, insertions, removals, removed};
ghost use Rattle.reduce_tree.specs.Folding.{result_of};
ghost use Rattle.reduce_tree.specs.Members.{AreLifted, entries_of, member_of};
ghost use Rattle.reduce_tree.specs.Tree.{IsFilledTree};

use crate::fold::Fold;
use crate::member::{Member, MergedRows};
use paged_map::SummedMap;
use raven_base::{Exact, NoMemory, Shared, Steps};
use std::alloc::{AllocError, Global};
use std::marker::Model;
use std::sync::ledger::Ledger;

/// Entries under keys, with the row that they have together. Contracts see how entries become rows, the entries in the order
/// of their keys, and how many levels of pages there are.
///
/// A change takes the tree, and changes in place those of its pages that no other tree has. A clone shares all pages, and stays as
/// it was when the tree changes. Each page has the row of the entries below it. So a change merges the rows on the way from a leaf
/// to the root anew, and no others.
pub struct ReduceTree<K: Ord, E, F: Fold<E>> {
    rows: MergedRows<F>,
    members: SummedMap<K, Member<E, F::Row>, MergedRows<F>>,
}

// Opaque drop: see raven_base.
impl<K: Ord + Drop, E: Drop, F: Fold<E> + Drop> Drop for ReduceTree<K, E, F> {
    fn drop(self) {
        let ReduceTree {
            rows: _rows,
            members: _members,
        } = self;
    }
}

impl<K: Ord, E, F: Fold<E>> Model for ReduceTree<K, E, F> {
    ghost use Rattle.reduce_tree.specs.Tree.{Tree, tree_code};
    ghost use Rattle.reduce_tree.specs.Members.{AreLifted, entries_of};

    ghost Value = { Tree F K E };

    ghost coded = { tree_code F.code K.code E.code };

    ghost view = { λ a. record { fold = a.rows.fold; entries = entries_of a.members.pairs; levels = a.members.levels } };

    ghost invariant = { λ a. AreLifted (F.lifted a.rows.fold) a.members.pairs };
}

/// A clone shares every page, and takes no memory.
impl<K: Ord + Drop, E: Drop, F: Fold<E>> Clone for ReduceTree<K, E, F> {
    ghost is_clone = { λ tree copy. copy ≡ tree };

    fn clone(&self) -> Result<ReduceTree<K, E, F>, AllocError> {
        Ok(ReduceTree {
            rows: MergedRows {
                fold: self.rows.fold.clone()?,
            },
            members: self.members.clone()?,
        })
    }
}

impl<K: Ord + Exact + Drop, E: Exact + Drop, F: Fold<E>> ReduceTree<K, E, F> {
    /// The tree of no entries.
    pub fn new(alloc: Global, fold: Shared<F>) -> Result<ReduceTree<K, E, F>, NoMemory>
        ensures { IfOk result (λ t. t ≡ record { fold = fold; entries = []; levels = 1 }) }
    {
        Ok(ReduceTree {
            rows: MergedRows { fold },
            members: SummedMap::new(alloc)?,
        })
    }

    /// The tree after some changes: the keys that come with no entry are taken out first, and then the others are put in. So
    /// the tree is never deeper on the way than before or after. This tree stays, so the first change copies pages of it; the
    /// others copy only those that are still shared with it.
    pub fn apply<L: Ledger>(
        &self,
        alloc: Global,
        changes: &[(K, Option<E>)],
        steps: &mut Steps<L>,
    ) -> Result<ReduceTree<K, E, F>, NoMemory>
        ensures fold { IfOk result (λ t. t.fold ≡ self.now.fold) }
        ensures entries { IfOk result (λ t. t.entries ≡ changed K.cmp self.now.entries changes.now) }
        ensures filled { IfOk result IsFilledTree }
        ensures merges { IfOk result (λ t. (h : ℕ) → self.now.levels ≤ h → t.levels ≤ h → MergesAtMost (length changes.now * (64 * (h + 1))) steps.old steps.new) }
        ensures maps { steps.new.maps ≡ steps.old.maps }
        ensures reads { steps.new.reads ≡ steps.old.reads }
    {
        let left = members_without(alloc, &self.rows, &self.members, changes, steps)?;
        let members = members_with(alloc, &self.rows, left, changes, steps)?;
        let rows = MergedRows {
            fold: self.rows.fold.clone()?,
        };
        Ok(tree_of(rows, members))
    }

    /// The tree with this entry at the key, in place of the one there.
    ///
    /// Of the pages on the way to the key, those that no other tree has are changed in place, and the others are copied. If it
    /// runs out of memory, this tree is gone, and its clones stay.
    pub fn with<L: Ledger>(
        self,
        alloc: Global,
        key: &K,
        entry: &E,
        steps: &mut Steps<L>,
    ) -> Result<ReduceTree<K, E, F>, NoMemory>
        ensures fold { IfOk result (λ t. t.fold ≡ self.fold) }
        ensures entries { IfOk result (λ t. t.entries ≡ insert_entry K.cmp self.entries key.now entry.now) }
        ensures levels { IfOk result (λ t. self.levels ≤ t.levels) }
        ensures filled { IfOk result IsFilledTree }
        ensures merges { OnOk result (MergesAtMost (33 * self.levels + 2) steps.old steps.new) }
        ensures maps { steps.new.maps ≡ steps.old.maps }
        ensures reads { steps.new.reads ≡ steps.old.reads }
    {
        let ReduceTree { rows, members } = self;
        let grown = with_entry(alloc, &rows, members, key, entry, steps)?;
        Ok(tree_of(rows, grown))
    }

    /// The tree without the key. If the key is not there, it is the same tree.
    ///
    /// Pages are changed in place and copied as by `with`. If it runs out of memory, this tree is gone, and its clones stay.
    pub fn without<L: Ledger>(
        self,
        alloc: Global,
        key: &K,
        steps: &mut Steps<L>,
    ) -> Result<ReduceTree<K, E, F>, NoMemory>
        ensures fold { IfOk result (λ t. t.fold ≡ self.fold) }
        ensures entries { IfOk result (λ t. t.entries ≡ remove_entry (is_at (K.cmp key.now)) self.entries) }
        ensures levels { IfOk result (λ t. t.levels ≤ self.levels) }
        ensures filled { IfOk result IsFilledTree }
        ensures merges { OnOk result (MergesAtMost (47 * self.levels) steps.old steps.new) }
        ensures maps { steps.new.maps ≡ steps.old.maps }
        ensures reads { steps.new.reads ≡ steps.old.reads }
    {
        let ReduceTree { rows, members } = self;
        let left = members.take_out(alloc, &rows, key, steps)?;
        Ok(tree_of(rows, left))
    }
}

impl<K: Ord, E, F: Fold<E>> ReduceTree<K, E, F> {
    /// The row of all entries. There is none exactly if there are no entries.
    pub fn result(&self) -> Option<&F::Row>
        ensures { option_copied result ≡ result_of (F.lifted self.now.fold) (F.none self.now.fold) F.merged (map (λ e. e.1) self.now.entries) }
    {
        self.members.total()
    }

    /// How many levels of pages there are: one if there are at most 16 entries.
    pub fn levels(&self) -> u32
        ensures levels { result ≡ self.now.levels }
        ensures filled { IsFilledTree self.now }
    {
        self.members.levels()
    }

    /// Whether there are no entries.
    pub fn is_empty(&self) -> bool
        ensures { IsTrue result ↔ (self.now.entries ≡ []) }
    {
        self.len() == 0
    }

    /// How many entries there are.
    pub fn len(&self) -> u64
        ensures { result ≡ length self.now.entries }
    {
        self.members.len()
    }
}

/// The tree of these members.
fn tree_of<K: Ord + Drop, E: Drop, F: Fold<E>>(
    rows: MergedRows<F>,
    members: SummedMap<K, Member<E, F::Row>, MergedRows<F>>,
) -> ReduceTree<K, E, F>
    requires lifted { AreLifted (F.lifted rows.fold) members.pairs }
    ensures is { result ≡ record { fold = rows.fold; entries = entries_of members.pairs; levels = members.levels } }
    ensures filled { IsFilledTree result }
{
    // The proof needs it: the pages are filled.
    let _levels = members.levels();
    ReduceTree { rows, members }
}

/// The members with one of this entry.
fn with_entry<K: Ord + Exact + Drop, E: Exact + Drop, F: Fold<E>, L: Ledger>(
    alloc: Global,
    rows: &MergedRows<F>,
    members: SummedMap<K, Member<E, F::Row>, MergedRows<F>>,
    key: &K,
    entry: &E,
    steps: &mut Steps<L>,
) -> Result<SummedMap<K, Member<E, F::Row>, MergedRows<F>>, NoMemory>
    ensures pairs { IfOk result (λ m. m.pairs ≡ insert_entry K.cmp members.pairs key.now (member_of (F.lifted rows.now.fold) entry.now)) }
    ensures levels { IfOk result (λ m. members.levels ≤ m.levels) }
    ensures merges { OnOk result (MergesAtMost (33 * members.levels + 2) steps.old steps.new) }
    ensures maps { steps.new.maps ≡ steps.old.maps }
    ensures reads { steps.new.reads ≡ steps.old.reads }
{
    let row = rows.fold.get().lift(alloc, entry)?;
    let member = Member {
        entry: entry.clone()?,
        row,
    };
    members.put(alloc, rows, key.clone()?, member, steps)
}

/// The members without the keys that come with no entry.
fn members_without<K: Ord + Exact + Drop, E: Exact + Drop, F: Fold<E>, L: Ledger>(
    alloc: Global,
    rows: &MergedRows<F>,
    members: &SummedMap<K, Member<E, F::Row>, MergedRows<F>>,
    changes: &[(K, Option<E>)],
    steps: &mut Steps<L>,
) -> Result<SummedMap<K, Member<E, F::Row>, MergedRows<F>>, NoMemory>
    ensures pairs { IfOk result (λ m. m.pairs ≡ removed K.cmp members.now.pairs changes.now) }
    ensures levels { IfOk result (λ m. m.levels ≤ members.now.levels) }
    ensures merges { OnOk result (MergesAtMost (removals changes.now * (64 * (members.now.levels + 1))) steps.old steps.new) }
    ensures maps { steps.new.maps ≡ steps.old.maps }
    ensures reads { steps.new.reads ≡ steps.old.reads }
{
    let mut left = members.clone()?;
    for change in changes {
        match &change.1 {
            None => left = left.take_out(alloc, rows, &change.0, steps)?,
            Some(_) => {}
        }
    }
    Ok(left)
}

/// The members with the entries that come.
fn members_with<K: Ord + Exact + Drop, E: Exact + Drop, F: Fold<E>, L: Ledger>(
    alloc: Global,
    rows: &MergedRows<F>,
    members: SummedMap<K, Member<E, F::Row>, MergedRows<F>>,
    changes: &[(K, Option<E>)],
    steps: &mut Steps<L>,
) -> Result<SummedMap<K, Member<E, F::Row>, MergedRows<F>>, NoMemory>
    ensures pairs { IfOk result (λ m. m.pairs ≡ inserted K.cmp (member_of (F.lifted rows.now.fold)) members.pairs changes.now) }
    ensures levels { IfOk result (λ m. members.levels ≤ m.levels) }
    ensures merges { IfOk result (λ m. (h : ℕ) → m.levels ≤ h → MergesAtMost (insertions changes.now * (64 * (h + 1))) steps.old steps.new) }
    ensures maps { steps.new.maps ≡ steps.old.maps }
    ensures reads { steps.new.reads ≡ steps.old.reads }
{
    let mut grown = members;
    for change in changes {
        if let Some(entry) = &change.1 {
            grown = with_entry(alloc, rows, grown, &change.0, entry, steps)?;
        }
    }
    Ok(grown)
}
