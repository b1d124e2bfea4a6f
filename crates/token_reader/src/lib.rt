//! What the parsers of the languages share: the tokens that are left, why a rule stops, and which token is refused.
#![tactic(auto)]

mod matching;
mod refusal;
mod stop;
mod tokens;

pub use matching::is_word;
pub use refusal::Refusal;
pub use stop::Stop;
pub use tokens::Tokens;
