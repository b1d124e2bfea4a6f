//! The folds of a reduce: the sum, the least and the greatest value of a field, and rows of these; with their laws.
#![tactic(auto)]

mod cell;
mod field_fold;
mod fields;
mod laws;
mod row_fold;
mod values;

pub use cell::Cell;
pub use field_fold::FieldFold;
pub use fields::HasFields;
pub use laws::{
    order_changes_no_row, parts_give_the_whole, rows_are_folds, sums_are_exact, sums_are_small,
    sums_of_sums_are_exact,
};
pub use row_fold::{Cells, RowFold};
pub use values::addend;
