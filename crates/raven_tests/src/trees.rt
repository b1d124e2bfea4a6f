//! How often a tree of entries merges rows, by a fold that counts its merges itself.
ghost use Rattle.std.specs.Prelude.{◌≡◌, ◌≤◌, refl, true};

use raven_base::{NoMemory, Shared, Steps};
use reduce_tree::{Fold, ReduceTree};
use std::alloc::Global;
use std::cell::Cell;
use std::marker::Brand;
use std::sync::ledger::{Blank, Ledger};
use std::test::Fail;

/// Whether there are entries: the row of any of them is `true`.
#[derive(Drop)]
struct CountingFold<'a> {
    merges: &'a Cell<u64>,
}

type Tree<'a> = ReduceTree<u32, u32, CountingFold<'a>>;

impl<'a> Fold<u32> for CountingFold<'a> {
    type Row = bool;

    ghost lifted = { λ fold entry. true };

    ghost none = { λ fold. true };

    ghost merged = { λ a b. true };

    ghost associative = { λ a b c. refl };

    ghost commutative = { λ a b. refl };

    ghost unital = { λ fold entry. refl };

    ghost unital_none = { λ fold. refl };

    fn lift(&self, _alloc: Global, _entry: &u32) -> Result<bool, NoMemory> {
        Ok(true)
    }

    fn unit(&self, _alloc: Global) -> Result<bool, NoMemory> {
        Ok(true)
    }

    fn merge<L: Ledger>(
        &self,
        _alloc: Global,
        _a: &bool,
        _b: &bool,
        steps: &mut Steps<L>,
    ) -> Result<bool, NoMemory> {
        self.merges.set(self.merges.get().wrapping_add(1));
        steps.merge_done();
        Ok(true)
    }
}

fn empty<'a>(alloc: Global, merges: &'a Cell<u64>) -> Result<Tree<'a>, NoMemory> {
    let fold = Shared::of(alloc, CountingFold { merges })?;
    Tree::new(alloc, fold)
}

// The tree after one change. What the other counter has is not looked at.
fn changed<'a, L: Ledger>(
    alloc: Global,
    tree: &Tree<'a>,
    change: (u32, Option<u32>),
    blank: Blank,
) -> Result<Tree<'a>, NoMemory>
    requires name { blank.name ≡ L.name }
    requires parts { blank.parts ≡ L.parts }
    requires enough { 3 ≤ blank.parts }
{
    let mut steps = Steps::<L>::new(blank);
    tree.apply(alloc, &[change], &mut steps)
}

// The tree after a change at each of 65 keys, and the most merges that one of them took.
fn changed_at_each<'a>(
    alloc: Global,
    tree: Tree<'a>,
    entry: Option<u32>,
    merges: &Cell<u64>,
) -> Result<(Tree<'a>, u64), NoMemory> {
    let mut tree = tree;
    let mut most = 0;
    for key in 0..65u32 {
        merges.set(0);
        tree = changed::<Brand>(alloc, &tree, (key, entry), Blank::new(3))?;
        most = merges.get().max(most);
    }
    Ok((tree, most))
}

// A page has at most 64 entries, so these need two levels of pages. A change of a tree of h levels makes at most 64 * (h + 1) merges.
#[test]
fn a_change_merges_what_is_above_it(rt: HostRuntime) -> Result<(), Fail> {
    let merges = Cell::new(0);
    let tree = empty(rt.alloc(), &merges)?;
    let (tree, most) = changed_at_each(rt.alloc(), tree, Some(1), &merges)?;
    assert_eq!(rt; tree.levels(), 2);
    assert!(rt; tree.result().is_some());
    assert!(rt; 0 < most && most <= 192);
    let (tree, most) = changed_at_each(rt.alloc(), tree, None, &merges)?;
    assert!(rt; tree.result().is_none());
    assert!(rt; most <= 192);
    Ok(())
}
