//! The groups.
ghost use Rattle.std.specs.Prelude.{◌≡◌, ◌≤◌, ◌+◌, ◌*◌, ℕ, List, [], cond, length, map, option_map, slice_get, IfOk};
ghost use Rattle.std.specs.Map.{remove_entry};
ghost use Rattle.std.specs.BTreeMap.{insert_entry, is_at};
ghost use Rattle.std.specs.Option.{option_copied};
ghost use Rattle.std.specs.FinMap.{IsAntisymmetric, entries};
ghost use Rattle.std.specs.Ordering.{is_eq};
ghost use Rattle.paged_map.specs.Merges.{MergesAtMost};
ghost use Rattle.paged_map.specs.Pairs.{IsRising};
ghost use Rattle.reduce_groups.specs.Grouping.{AreGrouped, AreNew, AreThere, all_inserted, all_removed, rows_of};
ghost use Rattle.reduce_groups.specs.Groups.{AllLevels, AllSmall, AreSound, after_insertions, after_removals, entries_at, rows_in};
ghost use Rattle.reduce_tree.specs.Folding.{fold_of, result_of};

use crate::trees::{Taken, row_at, rows_in, take_tree, trees_with};
use paged_map::PagedMap;
use raven_base::{Exact, NoMemory, Shared, Steps};
use reduce_tree::{Fold, ReduceTree};
use std::alloc::{AllocError, Global};
use std::marker::Model;
use std::sync::ledger::Ledger;

/// Entries in groups, each group under its key, with the row that the entries of each have together. There is no group without
/// entries.
///
/// A change gives new groups and leaves the old ones as they were. The two share all trees that did not change, and what several changes
/// have in common is copied once: pages of the map of groups, and of a group's tree.
pub struct Groups<G: Ord, K: Ord, E, F: Fold<E>> {
    fold: Shared<F>,
    trees: PagedMap<G, Shared<ReduceTree<K, E, F>>>,
}

// Opaque drop: see raven_base.
impl<G: Ord + Drop, K: Ord + Drop, E: Drop, F: Fold<E> + Drop> Drop for Groups<G, K, E, F> {
    fn drop(self) {
        let Groups {
            fold: _fold,
            trees: _trees,
        } = self;
    }
}

impl<G: Ord, K: Ord, E, F: Fold<E>> Model for Groups<G, K, E, F> {
    ghost use Rattle.reduce_groups.specs.Groups as is;

    ghost Value = { is.Groups F G K E };

    ghost coded = { is.groups_code F.code G.code K.code E.code };

    ghost view = { λ a. record { fold = a.fold; trees = a.trees } };

    ghost invariant = { λ a. is.AreSound a.fold a.trees };
}

/// A clone shares all trees, and takes no memory.
impl<G: Ord + Drop, K: Ord + Drop, E: Drop, F: Fold<E>> Clone for Groups<G, K, E, F> {
    ghost is_clone = { λ groups copy. copy ≡ groups };

    fn clone(&self) -> Result<Groups<G, K, E, F>, AllocError> {
        Ok(Groups {
            fold: self.fold.clone()?,
            trees: self.trees.clone()?,
        })
    }
}

impl<G: Ord + Exact + Drop, K: Ord + Exact + Drop, E: Exact + Drop, F: Fold<E>> Groups<G, K, E, F> {
    /// No groups.
    pub fn new(alloc: Global, fold: Shared<F>) -> Result<Groups<G, K, E, F>, NoMemory>
        ensures { IfOk result (λ r. r ≡ record { fold = fold; trees = [] }) }
    {
        Ok(Groups {
            fold,
            trees: PagedMap::new(alloc)?,
        })
    }

    /// The groups after some changes: all removals are made first, each with the key of its group, and then all insertions. So no
    /// tree is deeper on the way than before or after.
    ///
    /// The clauses say what the entries of each group are; that entries which were grouped by a key stay grouped by it; and how
    /// many merges are made if no group, before or after, has more than 16^h entries.
    pub fn changed<L: Ledger>(
        &self,
        alloc: Global,
        removals: &[(G, K)],
        insertions: &[(G, (K, E))],
        steps: &mut Steps<L>,
    ) -> Result<Groups<G, K, E, F>, NoMemory>
        ensures fold { IfOk result (λ r. r.fold ≡ self.now.fold) }
        ensures entries { IfOk result (λ r. (q : G) → entries_at G.cmp q r.trees ≡ after_insertions G.cmp K.cmp q (after_removals G.cmp K.cmp q (entries_at G.cmp q self.now.trees) removals.now) insertions.now) }
        ensures grouped { IfOk result (λ r. (key : E → G) (es : List (K × E)) → IsRising K.cmp es → AreGrouped G.cmp key es self.now.trees → AreThere K.cmp key es removals.now →
            AreNew K.cmp key (all_removed K.cmp es removals.now) insertions.now → AreGrouped G.cmp key (all_inserted K.cmp (all_removed K.cmp es removals.now) insertions.now) r.trees) }
        ensures merges { IfOk result (λ r. (h : ℕ) → 1 ≤ h → AllSmall h self.now.trees → AllSmall h r.trees → MergesAtMost ((length removals.now + length insertions.now) * (64 * (h + 1))) steps.old steps.new) }
        ensures touched { IfOk result (λ r. (m h : ℕ) → length removals.now ≤ m → length insertions.now ≤ m → 1 ≤ h → AllSmall h self.now.trees → AllSmall h r.trees → MergesAtMost (128 * m * (h + 1)) steps.old steps.new) }
        ensures maps { steps.new.maps ≡ steps.old.maps }
        ensures reads { steps.new.reads ≡ steps.old.reads }
    {
        let copy = self.clone()?;
        let left = copy.without_all(alloc, removals, steps)?;
        let groups = left.with_all(alloc, insertions, steps)?;
        // The proof needs both: small groups have low trees.
        let _before = self.len();
        let _after = groups.len();
        Ok(groups)
    }

    /// The groups with this entry in one of them.
    fn with<L: Ledger>(
        self,
        alloc: Global,
        group: &G,
        key: &K,
        entry: &E,
        steps: &mut Steps<L>,
    ) -> Result<Groups<G, K, E, F>, NoMemory>
        ensures fold { IfOk result (λ r. r.fold ≡ self.fold) }
        ensures entries { IfOk result (λ r. (q : G) → entries_at G.cmp q r.trees ≡ cond (is_eq (G.cmp q group.now)) (insert_entry K.cmp (entries_at G.cmp q self.trees) key.now entry.now) (entries_at G.cmp q self.trees)) }
        ensures merges { IfOk result (λ r. (h : ℕ) → AllLevels h r.trees → AllLevels h self.trees × MergesAtMost (64 * (h + 1)) steps.old steps.new) }
        ensures maps { steps.new.maps ≡ steps.old.maps }
        ensures reads { steps.new.reads ≡ steps.old.reads }
    {
        let Groups { fold, trees } = self;
        let Taken { tree, rest } = take_tree(alloc, &fold, trees, group)?;
        let grown = tree.with(alloc, key, entry, steps)?;
        Ok(Groups {
            trees: trees_with(alloc, &fold, rest, group, grown)?,
            fold,
        })
    }

    /// The groups without the entry at this key of one of them.
    fn without<L: Ledger>(
        self,
        alloc: Global,
        group: &G,
        key: &K,
        steps: &mut Steps<L>,
    ) -> Result<Groups<G, K, E, F>, NoMemory>
        ensures fold { IfOk result (λ r. r.fold ≡ self.fold) }
        ensures entries { IfOk result (λ r. (q : G) → entries_at G.cmp q r.trees ≡ cond (is_eq (G.cmp q group.now)) (remove_entry (is_at (K.cmp key.now)) (entries_at G.cmp q self.trees)) (entries_at G.cmp q self.trees)) }
        ensures merges { IfOk result (λ r. (h : ℕ) → AllLevels h self.trees → AllLevels h r.trees × MergesAtMost (64 * (h + 1)) steps.old steps.new) }
        ensures maps { steps.new.maps ≡ steps.old.maps }
        ensures reads { steps.new.reads ≡ steps.old.reads }
    {
        let Groups { fold, trees } = self;
        let Taken { tree, rest } = take_tree(alloc, &fold, trees, group)?;
        let left = tree.without(alloc, key, steps)?;
        Ok(Groups {
            trees: trees_with(alloc, &fold, rest, group, left)?,
            fold,
        })
    }

    /// The groups without these entries.
    fn without_all<L: Ledger>(
        self,
        alloc: Global,
        removals: &[(G, K)],
        steps: &mut Steps<L>,
    ) -> Result<Groups<G, K, E, F>, NoMemory>
        ensures fold { IfOk result (λ r. r.fold ≡ self.fold) }
        ensures entries { IfOk result (λ r. (q : G) → entries_at G.cmp q r.trees ≡ after_removals G.cmp K.cmp q (entries_at G.cmp q self.trees) removals.now) }
        ensures merges { IfOk result (λ r. (h : ℕ) → AllLevels h self.trees → AllLevels h r.trees × MergesAtMost (length removals.now * (64 * (h + 1))) steps.old steps.new) }
        ensures maps { steps.new.maps ≡ steps.old.maps }
        ensures reads { steps.new.reads ≡ steps.old.reads }
    {
        let mut groups = self;
        for change in removals {
            groups = groups.without(alloc, &change.0, &change.1, steps)?;
        }
        Ok(groups)
    }

    /// The groups with these entries.
    fn with_all<L: Ledger>(
        self,
        alloc: Global,
        insertions: &[(G, (K, E))],
        steps: &mut Steps<L>,
    ) -> Result<Groups<G, K, E, F>, NoMemory>
        ensures fold { IfOk result (λ r. r.fold ≡ self.fold) }
        ensures entries { IfOk result (λ r. (q : G) → entries_at G.cmp q r.trees ≡ after_insertions G.cmp K.cmp q (entries_at G.cmp q self.trees) insertions.now) }
        ensures merges { IfOk result (λ r. (h : ℕ) → AllLevels h r.trees → AllLevels h self.trees × MergesAtMost (length insertions.now * (64 * (h + 1))) steps.old steps.new) }
        ensures maps { steps.new.maps ≡ steps.old.maps }
        ensures reads { steps.new.reads ≡ steps.old.reads }
    {
        let mut groups = self;
        for change in insertions {
            groups = groups.with(alloc, &change.0, &change.1.0, &change.1.1, steps)?;
        }
        Ok(groups)
    }
}

impl<G: Ord, K: Ord, E, F: Fold<E>> Groups<G, K, E, F> {
    /// How many groups there are.
    pub fn len(&self) -> u64
        ensures count { result ≡ length self.now.trees }
        ensures rising { IsRising G.cmp self.now.trees }
        ensures sound { AreSound self.now.fold self.now.trees }
    {
        self.trees.len()
    }

    /// The row of a group, if there is such a group.
    pub fn row(&self, group: &G) -> Option<&F::Row>
        ensures { option_copied result ≡ result_of (F.lifted self.now.fold) (F.none self.now.fold) F.merged (map (λ e. e.1) (entries_at G.cmp group.now self.now.trees)) }
    {
        match self.trees.get(group) {
            Some(tree) => tree.get().result(),
            None => None,
        }
    }

    /// The row at a place in the order of the keys, under its key. There is none if there are no more groups than that.
    ///
    /// It walks to that place.
    pub fn nth(&self, place: u64) -> Option<(&G, &F::Row)>
        ensures row { option_map (λ r. (r.0.now, r.1.now)) result ≡ slice_get (rows_in F.lifted F.none F.merged self.now.trees) place }
        ensures grouped { IsAntisymmetric G.cmp → (key : E → G) (es : List (K × E)) → AreGrouped G.cmp key es self.now.trees →
            option_map (λ r. (r.0.now, r.1.now)) result ≡ slice_get (entries (rows_of G.cmp key (fold_of (F.lifted self.now.fold) (F.none self.now.fold) F.merged) es)) place }
    {
        row_at(&self.trees, place)
    }
}

impl<G: Ord + Exact + Drop, K: Ord, E, F: Fold<E>> Groups<G, K, E, F> {
    /// The rows of all groups, each under its key, in the order of the keys.
    ///
    /// If the groups are those of entries by a key, the rows are exactly what those entries give by themselves.
    pub fn rows(&self, alloc: Global) -> Result<Vec<(G, F::Row)>, NoMemory>
        ensures rows { IfOk result (λ rows. rows.items ≡ rows_in F.lifted F.none F.merged self.now.trees) }
        ensures grouped { IfOk result (λ rows. IsAntisymmetric G.cmp → (key : E → G) (es : List (K × E)) → AreGrouped G.cmp key es self.now.trees →
            rows.items ≡ entries (rows_of G.cmp key (fold_of (F.lifted self.now.fold) (F.none self.now.fold) F.merged) es)) }
    {
        rows_in(alloc, &self.trees)
    }
}
