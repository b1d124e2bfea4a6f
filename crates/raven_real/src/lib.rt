//! The real input, output and clock, and the arguments of the program.
#![tactic(auto)]

mod args;
mod ports;

pub use args::arguments;
pub use ports::{RealClock, RealSink, RealSource};
