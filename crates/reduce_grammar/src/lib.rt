//! The grammar of reduces: which tokens spell which reduce, and at which token any other text is refused.
#![tactic(auto)]

mod laws;
mod spelled;

pub use laws::reduces_are_exact;
pub use spelled::{KeyForm, PlacedFold, PlacedFolds, SpelledKey, SpelledReduce};
