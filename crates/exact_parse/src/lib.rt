//! Exact parsing, once for every language: what is read is what is spelled, and each refusal is at its token.
#![tactic(auto)]

mod language;
mod laws;
mod looping;

pub use language::Language;
pub use laws::{
    answers_are_one, later_tokens_do_not_count, too_large_is_exact, unexpected_is_exact,
    what_is_read_is_spelled, what_is_spelled_is_read,
};
pub use looping::{Looping, loops_are_exact};
