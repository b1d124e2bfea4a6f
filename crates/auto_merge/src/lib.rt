//! Which automatic index can answer the queries of which others, and which takes in their fields.
#![tactic(auto)]

mod compare;
mod union;

pub use compare::{covers, is_alike, is_wider};
pub use union::widen;
