//! Batches: how an index takes in what it has not seen.
#![tactic(auto)]

mod batch;

pub use batch::next;
