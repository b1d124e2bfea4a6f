//! The grammar of queries: which tokens spell which query, and at which token any other text is refused.
#![tactic(auto)]

mod kind;
mod laws;

pub use kind::RqlKind;
pub use laws::queries_are_read_exactly;
