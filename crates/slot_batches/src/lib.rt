//! Batches of live indexes: how each of them, or the one of a name, takes in what it has not seen.
#![tactic(auto)]

mod batches;

pub use batches::{bring_on, read};
