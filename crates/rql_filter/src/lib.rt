//! Which entries of an index meet the condition of a query, from the terms of their fields.
#![tactic(auto)]

mod entries;
mod filter;
mod one_field;
mod ordered;

pub use entries::{Entries, Reads};
pub use filter::{count, matching};
pub use ordered::matching_in_order;
