//! Groups of entries by a key, each group in a tree that has the row of its entries.
#![tactic(auto)]

mod groups;
mod trees;

pub use groups::Groups;
