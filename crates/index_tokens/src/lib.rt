//! From the text of an index definition to its tokens.
#![tactic(auto)]

mod marks;
mod numbers;
mod prefixes;
mod reading;
mod reserved;
mod token;

pub use reading::tokenise;
pub use reserved::is_reserved;
pub use token::{Placed, Token};
