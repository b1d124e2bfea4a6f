//! Turns of indexes, whose batches are read while no thread waits for them.
#![tactic(auto)]

mod indexing;
mod publish;
mod turned;

pub use indexing::turn_index;
pub use turned::Turned;
