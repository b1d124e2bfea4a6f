//! From tokens to reduces: the reduce that they spell, or the token at which they are refused.
#![tactic(auto)]

mod folds;
mod keys;
mod reading;
mod reduces;
mod words;

pub use reading::read_reduce;
