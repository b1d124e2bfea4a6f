//! From the text of a query to the query, or to the token at which it is refused.
#![tactic(auto)]

mod conditions;
mod fields;
mod laws;
mod matching;
mod parsing;
mod queries;
mod refusal;
mod section;
mod stop;
mod tokens;

pub use laws::texts_have_one_answer;
pub use parsing::{MAX_TEXT, parse};
pub use refusal::RqlRefusal;
pub use rql_grammar::RqlKind;
