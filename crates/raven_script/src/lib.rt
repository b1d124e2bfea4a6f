//! The lines of a script, and what they ask.
#![tactic(auto)]

mod forms;
mod request;
mod words;
mod workers;

pub use forms::line;
pub use request::Line;
