//! The laws of reduces and of their folds, each the contract of a function without a body.

ghost use Rattle.std.specs.Prelude.{◌≡◌, ◌<◌, ◌≤◌, ◌*◌, ◌++◌, ◌^◌, List, ℕ, length, map};
ghost use Rattle.std.specs.Int.RustNames.{unsigned_abs};
ghost use Rattle.spec_data.specs.Scalars.{Scalar};
ghost use Rattle.index_tree.specs.Meaning.{Fields};
ghost use Rattle.index_tree.specs.declared.reduce_query.FoldKind.{FoldKind};
ghost use Rattle.index_tree.specs.declared.reduce_query.ReduceQuery.{ReduceQuery};
ghost use Rattle.reduce_folds.specs.declared.field_fold.FieldFold.{FieldFold};
ghost use Rattle.reduce_folds.specs.Cells.{cell_of, merged_cell, merged_row, no_cell, no_row, row_of};
ghost use Rattle.reduce_folds.specs.Exact.{AreWords, sizes};
ghost use Rattle.reduce_tree.specs.Folding.{fold_of};
ghost use Rattle.spec_index.specs.Folds.{as_one, both, sum_of};
ghost use Rattle.spec_index.specs.Rows.{IsReordered, Key, column, group, reduced};

/// A reduce gives the same rows for the same entries in another order.
pub fn order_changes_no_row()
    ensures { (query : ReduceQuery) (entries others : List Fields) → IsReordered entries others → reduced query entries ≡ reduced query others }
{}

/// If entries come in two parts, what a field of a group comes to is both of what it comes to in each part.
pub fn parts_give_the_whole()
    ensures { (names : List (List ℕ)) (key : Key) (kind : FoldKind) (field : List ℕ) (entries others : List Fields) →
        as_one kind (column field (group names key (entries ++ others)))
        ≡ both kind (as_one kind (column field (group names key entries))) (as_one kind (column field (group names key others))) }
{}

/// The fold of a field gives what the definition gives for its values: sums are exact for fewer than 2^64 entries of numbers of 64 bits.
pub fn sums_are_exact()
    ensures { (fold : FieldFold) (entries : List Fields) → AreWords (column fold.field entries) → length entries < 2 ^ 64 →
        fold_of (cell_of fold) (no_cell fold) merged_cell entries ≡ (fold.kind, as_one fold.kind (column fold.field entries)) }
{}

/// The cells of a row are the folds of its fields.
pub fn rows_are_folds()
    ensures { (folds : List FieldFold) (entries : List Fields) →
        fold_of (row_of folds) (no_row folds) merged_row entries ≡ map (λ fold. fold_of (cell_of fold) (no_cell fold) merged_cell entries) folds }
{}

/// So it is for numbers of more bits, as those of rows that are reduced once more, if their sizes together are below 2^127.
pub fn sums_of_sums_are_exact()
    ensures { (fold : FieldFold) (entries : List Fields) → sizes (column fold.field entries) < 2 ^ 127 →
        fold_of (cell_of fold) (no_cell fold) merged_cell entries ≡ (fold.kind, as_one fold.kind (column fold.field entries)) }
{}

/// The sum of numbers of 64 bits is no greater in size than so many of the greatest: below 2^95 for the documents of an index, and below 2^103 for
/// those of 256 indexes.
pub fn sums_are_small()
    ensures { (values : List Scalar) → AreWords values → unsigned_abs (sum_of values) ≤ length values * 9223372036854775808 }
{}
