//! The trees of groups, as one of them changes.
ghost use Rattle.std.specs.Prelude.{◌≡◌, ◌≤◌, ◌<◌, ℕ, cond, length, option_map, slice_get, IfOk};
ghost use Rattle.std.specs.Map.{lookup};
ghost use Rattle.std.specs.BTreeMap.{insert_entry, is_at};
ghost use Rattle.std.specs.Ordering.{is_eq};
ghost use Rattle.paged_map.specs.Pairs.{IsRising};
ghost use Rattle.reduce_groups.specs.Groups.{AllLevels, AreBeside, AreSound, IsLow, entries_at, levels_at, rows_in};
ghost use Rattle.reduce_tree.specs.Tree.{IsFilledTree};

use paged_map::PagedMap;
use raven_base::{Exact, NoMemory, Shared};
use reduce_tree::{Fold, ReduceTree};
use std::alloc::Global;

/// How many entries a tree of one page has at most.
const PAGE: u64 = 32;

/// The tree of a group, and the trees, which may be without it.
#[derive(Drop)]
pub struct Taken<G: Ord, K: Ord, E, F: Fold<E>> {
    pub tree: ReduceTree<K, E, F>,
    pub rest: PagedMap<G, Shared<ReduceTree<K, E, F>>>,
}

/// The tree of a group, to be changed and put back. It has no entries if there is no such group.
pub fn take_tree<G: Ord + Exact + Drop, K: Ord + Exact + Drop, E: Exact + Drop, F: Fold<E>>(
    alloc: Global,
    fold: &Shared<F>,
    trees: PagedMap<G, Shared<ReduceTree<K, E, F>>>,
    group: &G,
) -> Result<Taken<G, K, E, F>, NoMemory>
    requires sound { AreSound fold.now trees }
    ensures fold { IfOk result (λ t. t.tree.fold ≡ fold.now) }
    ensures entries { IfOk result (λ t. t.tree.entries ≡ entries_at G.cmp group.now trees) }
    ensures levels { IfOk result (λ t. t.tree.levels ≡ levels_at G.cmp group.now trees) }
    ensures rest { IfOk result (λ t. AreBeside G.cmp group.now trees t.rest) }
    ensures rising { IsRising G.cmp trees }
{
    let tree = tree_at(alloc, fold, &trees, group)?;
    if tree.len() <= PAGE {
        // To copy one page takes less than to take it out of the map and put it in again.
        return Ok(Taken { tree, rest: trees });
    }
    // It is taken out before it changes. As long as the map has it too, its pages have two owners and would be copied.
    let rest = trees.take_out(alloc, group)?;
    Ok(Taken { tree, rest })
}

/// The tree of a group. It has no entries if there is no such group.
fn tree_at<G: Ord, K: Ord + Exact + Drop, E: Exact + Drop, F: Fold<E>>(
    alloc: Global,
    fold: &Shared<F>,
    trees: &PagedMap<G, Shared<ReduceTree<K, E, F>>>,
    group: &G,
) -> Result<ReduceTree<K, E, F>, NoMemory>
    requires sound { AreSound fold.now trees.now }
    ensures fold { IfOk result (λ t. t.fold ≡ fold.now) }
    ensures entries { IfOk result (λ t. t.entries ≡ entries_at G.cmp group.now trees.now) }
    ensures levels { IfOk result (λ t. t.levels ≡ levels_at G.cmp group.now trees.now) }
    ensures rising { IsRising G.cmp trees.now }
{
    match trees.get(group) {
        Some(tree) => Ok(tree.get().clone()?),
        None => ReduceTree::new(alloc, fold.clone()?),
    }
}

/// The trees with this one for a group, in place of the earlier one, or without the group if the tree has no entries.
pub fn trees_with<G: Ord + Exact + Drop, K: Ord + Drop, E: Drop, F: Fold<E>>(
    alloc: Global,
    fold: &Shared<F>,
    trees: PagedMap<G, Shared<ReduceTree<K, E, F>>>,
    group: &G,
    tree: ReduceTree<K, E, F>,
) -> Result<PagedMap<G, Shared<ReduceTree<K, E, F>>>, NoMemory>
    requires sound { AreSound fold.now trees }
    requires fold { tree.fold ≡ fold.now }
    requires filled { IsFilledTree tree }
    ensures sound { IfOk result (AreSound fold.now) }
    ensures entries { IfOk result (λ ts. (q : G) → entries_at G.cmp q ts ≡ cond (is_eq (G.cmp q group.now)) tree.entries (entries_at G.cmp q trees)) }
    ensures lower { IfOk result (λ ts. (h : ℕ) → (0 < length tree.entries → tree.levels ≤ h) → AllLevels h trees → AllLevels h ts) }
    ensures upper { IfOk result (λ ts. (h : ℕ) → 0 < length tree.entries → AllLevels h ts → (tree.levels ≤ h) × (IsLow h (lookup (is_at (G.cmp group.now)) trees) → AllLevels h trees)) }
{
    // The proof needs it: the entries can be counted.
    let _entries = tree.len();
    if tree.is_empty() {
        return trees.take_out(alloc, group);
    }
    trees_and(alloc, trees, group, tree)
}

/// The trees with this one for a group.
fn trees_and<G: Ord + Exact + Drop, K: Ord + Drop, E: Drop, F: Fold<E>>(
    alloc: Global,
    trees: PagedMap<G, Shared<ReduceTree<K, E, F>>>,
    group: &G,
    tree: ReduceTree<K, E, F>,
) -> Result<PagedMap<G, Shared<ReduceTree<K, E, F>>>, NoMemory>
    ensures { IfOk result (λ ts. ts ≡ insert_entry G.cmp trees group.now tree) }
{
    trees.put(alloc, group.clone()?, Shared::of(alloc, tree)?)
}

/// The row at a place, under the key of its group. There is none if there are no more rows than that.
pub fn row_at<G: Ord, K: Ord, E, F: Fold<E>>(
    trees: &PagedMap<G, Shared<ReduceTree<K, E, F>>>,
    place: u64,
) -> Option<(&G, &F::Row)>
    ensures row { option_map (λ r. (r.0.now, r.1.now)) result ≡ slice_get (rows_in F.lifted F.none F.merged trees.now) place }
    ensures rising { IsRising G.cmp trees.now }
{
    let mut left = place;
    for pair in trees.iter() {
        if let Some(row) = pair.1.get().result() {
            if left == 0 {
                return Some((&pair.0, row));
            }
            left -= 1;
        }
    }
    None
}

/// The rows of the trees, each under the key of its group.
pub fn rows_in<G: Ord + Exact + Drop, K: Ord, E, F: Fold<E>>(
    alloc: Global,
    trees: &PagedMap<G, Shared<ReduceTree<K, E, F>>>,
) -> Result<Vec<(G, F::Row)>, NoMemory>
    ensures rows { IfOk result (λ rows. rows.items ≡ rows_in F.lifted F.none F.merged trees.now) }
    ensures rising { IsRising G.cmp trees.now }
{
    let mut rows = Vec::new(alloc);
    for pair in trees.iter() {
        if let Some(row) = pair.1.get().result() {
            rows.push((pair.0.clone()?, row.clone()?))?;
        }
    }
    Ok(rows)
}
