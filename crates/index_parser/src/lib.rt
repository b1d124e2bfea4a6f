//! From tokens to maps: the map that they spell, or the token at which they are refused.
#![tactic(auto)]

mod expressions;
mod maps;
mod operators;
mod reading;

pub use reading::read_map;
