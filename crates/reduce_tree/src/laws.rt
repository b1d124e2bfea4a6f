//! The laws of folds, each the contract of a function without a body.
ghost use Rattle.std.specs.Prelude.{◌≡◌, ◌++◌, ◌∷◌, List};
ghost use Rattle.reduce_tree.specs.Folding.{fold_of};

use crate::fold::Fold;

/// The row of some entries does not depend on their order: each may be taken first.
pub fn order_changes_no_row<E, F: Fold<E>>()
    ensures { (fold : F) (before after : List E) (entry : E) →
        fold_of (F.lifted fold) (F.none fold) F.merged (before ++ entry ∷ after) ≡ fold_of (F.lifted fold) (F.none fold) F.merged (entry ∷ before ++ after) }
{}

/// If entries come in two parts, their row is the rows of both parts merged.
pub fn parts_give_the_whole<E, F: Fold<E>>()
    ensures { (fold : F) (entries others : List E) →
        fold_of (F.lifted fold) (F.none fold) F.merged (entries ++ others)
        ≡ F.merged (fold_of (F.lifted fold) (F.none fold) F.merged entries) (fold_of (F.lifted fold) (F.none fold) F.merged others) }
{}
