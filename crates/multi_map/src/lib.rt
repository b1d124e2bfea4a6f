//! Indexes of several maps: those whose names are one name with `/1`, `/2` and so on behind it, asked as one index.
#![tactic(auto)]

mod answer;
mod parts;

pub use answer::ask;
