//! The map with totals, over its root page.
ghost use Rattle.std.specs.Prelude.{◌≡◌, ◌↔◌, ◌≤◌, ◌<◌, ◌+◌, ◌-◌, ◌*◌, ◌^◌, [], length, IfOk, OnOk, IsTrue};
ghost use Rattle.std.specs.Option.{option_copied};
ghost use Rattle.std.specs.Ordering.{is_le, is_lt};
ghost use Rattle.std.specs.List.{find};
ghost use Rattle.std.specs.Map.{lookup, remove_entry};
ghost use Rattle.std.specs.BTreeMap.{is_at, insert_entry};
ghost use Rattle.paged_map.specs.Pairs.{IsRising};
ghost use Rattle.paged_map.specs.Range.{between};
ghost use Rattle.paged_map.specs.Totals.{total_of};
ghost use Rattle.paged_map.specs.Merges.{MergesAtMost};

use crate::build::root_over_all;
use crate::change::{put, take_out};
use crate::new_pages::{empty, root_of, root_over};
use crate::owned::owned;
use crate::page::{Node, Page};
use crate::pairs::Pairs;
use crate::summary::Summary;
use raven_base::{NoMemory, Steps};
use std::alloc::{AllocError, Global};
use std::marker::Model;
use std::sync::Arc;
use std::sync::ledger::Ledger;

/// A map from keys to values, in the order of its keys, that also has the total of all values. Contracts see the list of its
/// pairs, which rises by key, and how many levels of pages it has.
///
/// Each page has the total of the values below it. So a change computes the totals of a few pages anew, and its clause bounds
/// how many totals are merged for it.
///
/// In all else it is as `PagedMap`, which is this map without totals: a change gives a new map, which shares most pages with
/// the old one, and keys that compare equal are the same key, whose first spelling stays.
pub struct SummedMap<K: Ord, V, S: Summary<V>> {
    root: Arc<Page<K, V, S>>,
    len: u64,
}

// Opaque drop: see raven_base.
impl<K: Ord + Drop, V: Drop, S: Summary<V> + Drop> Drop for SummedMap<K, V, S> {
    fn drop(self) {
        let SummedMap {
            root: _root,
            len: _len,
        } = self;
    }
}

impl<K: Ord, V, S: Summary<V>> Model for SummedMap<K, V, S> {
    ghost use Rattle.std.specs.Prelude.{◌≡◌, suc, length};
    ghost use Rattle.paged_map.specs.Contents.{Contents, contents_code};
    ghost use Rattle.paged_map.specs.Level.{IsFilled};
    ghost use Rattle.paged_map.specs.Pairs.{IsRising};

    ghost Value = { Contents K V };

    ghost coded = { contents_code K.code V.code };

    ghost view = { λ m. record { pairs = m.root.value.pairs; levels = suc m.root.value.height } };

    ghost invariant = { λ m. IsRising K.cmp m.root.value.pairs × (m.len ≡ length m.root.value.pairs) × IsFilled m.root.value };
}

/// A clone shares every page, and takes no memory.
impl<K: Ord + Drop, V: Drop, S: Summary<V>> Clone for SummedMap<K, V, S> {
    ghost is_clone = { λ map copy. copy ≡ map };

    fn clone(&self) -> Result<SummedMap<K, V, S>, AllocError> {
        self.another()
    }
}

impl<K: Ord + Drop, V: Drop, S: Summary<V>> SummedMap<K, V, S> {
    /// One more owner of the same root.
    pub(crate) fn another(&self) -> Result<SummedMap<K, V, S>, AllocError>
        ensures same { IfOk result (λ m. m ≡ self.now) }
        ensures rising { IsRising K.cmp self.now.pairs }
    {
        Ok(SummedMap {
            root: self.root.clone()?,
            len: self.len,
        })
    }
}

impl<K: Ord, V, S: Summary<V>> SummedMap<K, V, S> {
    /// The page above all others.
    pub(crate) fn root(&self) -> &Page<K, V, S>
        ensures pairs { result.now.pairs ≡ self.now.pairs }
        ensures rising { IsRising K.cmp self.now.pairs }
    {
        &self.root
    }

    /// How many pairs it has.
    pub fn len(&self) -> u64
        ensures count { result ≡ length self.now.pairs }
        ensures rising { IsRising K.cmp self.now.pairs }
    {
        self.len
    }

    /// How many levels of pages it has: one if it has at most 16 pairs.
    pub fn levels(&self) -> u32
        ensures levels { result ≡ self.now.levels }
        ensures filled { 1 < self.now.levels → 16 ^ (self.now.levels - 1) < length self.now.pairs }
    {
        // The proof needs both: the number of pairs is below 2^64, so there are few levels.
        let _all = self.len();
        let _held = self.root.count();
        self.root.levels()
    }

    /// The total of all values in the order of their keys, if there are any.
    pub fn total(&self) -> Option<&S::Total>
        ensures { option_copied result ≡ total_of S.lifted S.merged self.now.pairs }
    {
        self.root.total()
    }

    /// Whether it has no pairs.
    pub fn is_empty(&self) -> bool
        ensures { IsTrue result ↔ (self.now.pairs ≡ []) }
    {
        self.len == 0
    }

    /// The value at the key.
    pub fn get(&self, key: &K) -> Option<&V>
        ensures value { option_copied result ≡ lookup (is_at (K.cmp key.now)) self.now.pairs }
        ensures rising { IsRising K.cmp self.now.pairs }
    {
        self.root.get(key)
    }

    /// The first pair whose key is this one or past it.
    pub fn first_from(&self, key: &K) -> Option<&(K, V)>
        ensures pair { option_copied result ≡ find (λ e. is_le (K.cmp key.now e.0)) self.now.pairs }
        ensures rising { IsRising K.cmp self.now.pairs }
    {
        self.root.pair_from(key, false)
    }

    /// The first pair whose key is past this one.
    pub fn first_after(&self, key: &K) -> Option<&(K, V)>
        ensures pair { option_copied result ≡ find (λ e. is_lt (K.cmp key.now e.0)) self.now.pairs }
        ensures rising { IsRising K.cmp self.now.pairs }
    {
        self.root.pair_from(key, true)
    }

    /// All pairs, in order.
    pub fn iter(&self) -> Pairs<'_, K, V, S>
        ensures pairs { result ≡ self.now.pairs }
        ensures rising { IsRising K.cmp self.now.pairs }
    {
        Pairs::all(&self.root)
    }

    /// The pairs whose keys are from `low` up to `high`, both included, in order.
    pub fn range(&self, low: &K, high: &K) -> Pairs<'_, K, V, S>
        ensures pairs { result ≡ between K.cmp low.now high.now self.now.pairs }
        ensures rising { IsRising K.cmp self.now.pairs }
    {
        Pairs::of(&self.root, low, high)
    }
}

impl<K: Ord + Drop, V: Drop, S: Summary<V>> SummedMap<K, V, S> {
    /// The map with no pairs.
    pub fn new(alloc: Global) -> Result<SummedMap<K, V, S>, NoMemory>
        ensures { IfOk result (λ m. m ≡ record { pairs = []; levels = 1 }) }
    {
        Ok(SummedMap {
            root: empty(alloc)?,
            len: 0,
        })
    }
}

impl<K: Ord + Clone + Drop, V: Drop, S: Summary<V>> SummedMap<K, V, S> {
    /// The map of these pairs, in time that is linear in their number. No clause bounds the merges that it counts.
    pub fn from_sorted<L: Ledger>(
        alloc: Global,
        summary: &S,
        pairs: Vec<(K, V)>,
        steps: &mut Steps<L>,
    ) -> Result<SummedMap<K, V, S>, NoMemory>
        requires keys { (x y : K) → K.is_clone x y → y ≡ x }
        requires rising { IsRising K.cmp pairs.items }
        ensures pairs { IfOk result (λ m. m.pairs ≡ pairs.items) }
        ensures maps { steps.new.maps ≡ steps.old.maps }
        ensures reads { steps.new.reads ≡ steps.old.reads }
    {
        let len = pairs.len() as u64;
        Ok(SummedMap {
            root: root_over_all(alloc, summary, Node::Leaf(pairs), steps)?,
            len,
        })
    }
}

impl<K: Ord + Clone + Drop, V: Clone + Drop, S: Summary<V>> SummedMap<K, V, S> {
    /// The map with this value at the key. If the key is there already, its spelling stays.
    ///
    /// Of the pages on the way to the key, those that no other map has are changed in place, and the others are copied. If it
    /// runs out of memory, this map is gone, and its clones stay.
    ///
    /// A map of 2^64 - 1 pairs, more than an address space holds, has no memory for another.
    pub fn put<L: Ledger>(
        self,
        alloc: Global,
        summary: &S,
        key: K,
        value: V,
        steps: &mut Steps<L>,
    ) -> Result<SummedMap<K, V, S>, NoMemory>
        requires keys { (x y : K) → K.is_clone x y → y ≡ x }
        requires values { (x y : V) → V.is_clone x y → y ≡ x }
        ensures pairs { IfOk result (λ m. m.pairs ≡ insert_entry K.cmp self.pairs key value) }
        ensures rising { IsRising K.cmp self.pairs }
        ensures levels { IfOk result (λ m. (self.levels ≤ m.levels) × (m.levels ≤ self.levels + 1)) }
        ensures merges { OnOk result (MergesAtMost (33 * self.levels + 2) steps.old steps.new) }
        ensures maps { steps.new.maps ≡ steps.old.maps }
        ensures reads { steps.new.reads ≡ steps.old.reads }
    {
        let SummedMap { root, mut len } = self;
        let pages = put(
            alloc,
            summary,
            owned(alloc, root)?,
            key,
            value,
            &mut len,
            steps,
        )?;
        Ok(SummedMap {
            root: root_of(alloc, summary, pages, steps)?,
            len,
        })
    }

    /// The map without the key. If the key is not there, it is the same map.
    ///
    /// Pages are changed in place and copied as by `put`. If it runs out of memory, this map is gone, and its clones stay.
    pub fn take_out<L: Ledger>(
        self,
        alloc: Global,
        summary: &S,
        key: &K,
        steps: &mut Steps<L>,
    ) -> Result<SummedMap<K, V, S>, NoMemory>
        requires keys { (x y : K) → K.is_clone x y → y ≡ x }
        requires values { (x y : V) → V.is_clone x y → y ≡ x }
        ensures pairs { IfOk result (λ m. m.pairs ≡ remove_entry (is_at (K.cmp key.now)) self.pairs) }
        ensures rising { IsRising K.cmp self.pairs }
        ensures levels { IfOk result (λ m. m.levels ≤ self.levels) }
        ensures merges { OnOk result (MergesAtMost (47 * self.levels) steps.old steps.new) }
        ensures maps { steps.new.maps ≡ steps.old.maps }
        ensures reads { steps.new.reads ≡ steps.old.reads }
    {
        let SummedMap { root, len } = self;
        // A key that is not there is only searched: no page is copied or made anew.
        if root.get(key).is_none() {
            return Ok(SummedMap { root, len });
        }
        let left = take_out(alloc, summary, owned(alloc, root)?, key, steps)?;
        Ok(SummedMap {
            root: root_over(alloc, summary, left, steps)?,
            len: len - 1,
        })
    }

    /// The map with this value at the key, as `put` gives it. This map stays, and the two share all pages but those on the way
    /// to the key.
    pub fn with<L: Ledger>(
        &self,
        alloc: Global,
        summary: &S,
        key: K,
        value: V,
        steps: &mut Steps<L>,
    ) -> Result<SummedMap<K, V, S>, NoMemory>
        requires keys { (x y : K) → K.is_clone x y → y ≡ x }
        requires values { (x y : V) → V.is_clone x y → y ≡ x }
        ensures pairs { IfOk result (λ m. m.pairs ≡ insert_entry K.cmp self.now.pairs key value) }
        ensures rising { IsRising K.cmp self.now.pairs }
        ensures levels { IfOk result (λ m. (self.now.levels ≤ m.levels) × (m.levels ≤ self.now.levels + 1)) }
        ensures merges { OnOk result (MergesAtMost (33 * self.now.levels + 2) steps.old steps.new) }
        ensures maps { steps.new.maps ≡ steps.old.maps }
        ensures reads { steps.new.reads ≡ steps.old.reads }
    {
        let map = self.another()?;
        map.put(alloc, summary, key, value, steps)
    }

    /// The map without the key, as `take_out` gives it. This map stays.
    pub fn without<L: Ledger>(
        &self,
        alloc: Global,
        summary: &S,
        key: &K,
        steps: &mut Steps<L>,
    ) -> Result<SummedMap<K, V, S>, NoMemory>
        requires keys { (x y : K) → K.is_clone x y → y ≡ x }
        requires values { (x y : V) → V.is_clone x y → y ≡ x }
        ensures pairs { IfOk result (λ m. m.pairs ≡ remove_entry (is_at (K.cmp key.now)) self.now.pairs) }
        ensures rising { IsRising K.cmp self.now.pairs }
        ensures levels { IfOk result (λ m. m.levels ≤ self.now.levels) }
        ensures merges { OnOk result (MergesAtMost (47 * self.now.levels) steps.old steps.new) }
        ensures maps { steps.new.maps ≡ steps.old.maps }
        ensures reads { steps.new.reads ≡ steps.old.reads }
    {
        let map = self.another()?;
        map.take_out(alloc, summary, key, steps)
    }
}
