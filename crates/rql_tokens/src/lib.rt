//! From the text of a query to its tokens.
#![tactic(auto)]

mod classes;
mod key_words;
mod marks;
mod numbers;
mod prefixes;
mod reading;
mod token;

pub use key_words::{Function, KeyWord, function_of};
pub use reading::tokenise;
pub use token::{Placed, Token};
