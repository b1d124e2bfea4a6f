//! The desk of one thread over a turn: its requests are answered on the value that all threads share. And what a pump asks there beside its batches.
#![tactic(auto)]

mod acts;
mod desk;
mod reads;
mod upkeep;
mod writes;

pub use desk::TurnDesk;
pub use upkeep::{clean, tidy};
