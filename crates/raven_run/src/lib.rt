//! The command `run`: the lines of a script, answered one after another on a live database.
#![tactic(auto)]

mod answering;
mod lines;
mod printing;
mod read;
mod run_end;
mod running;
mod workers;
mod working;

pub use run_end::RunEnd;
pub use running::{Ran, run};
