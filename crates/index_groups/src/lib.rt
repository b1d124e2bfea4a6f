//! The groups of an index whose definition has a reduce, and the rows that they give.
#![tactic(auto)]

mod groups;
mod key;
mod plan;
mod query;
mod row;
mod together;

pub use groups::IndexGroups;
pub use together::rows_together;
