//! Entries in shared pages, with the row that they have together: each page has that of the entries below it, so a change merges
//! few rows anew.
#![tactic(auto)]

mod fold;
mod laws;
mod member;
mod tree;

pub use fold::Fold;
pub use laws::{order_changes_no_row, parts_give_the_whole};
pub use tree::ReduceTree;
