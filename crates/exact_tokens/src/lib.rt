//! From bytes to tokens, once for every language: which bytes names, numbers and texts are made of, and the longest token that bytes begin with.
#![tactic(auto)]

mod classes;
mod numbers;
mod texts;

pub use classes::{is_blank, is_digit, is_letter, is_name_byte, word};
pub use numbers::magnitude;
pub use texts::quoted;
