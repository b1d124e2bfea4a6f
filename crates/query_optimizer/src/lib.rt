//! Which automatic index answers a query, and the shape and the name of a new one.
#![tactic(auto)]

mod choice;
mod free_name;
mod naming;
mod widths;

pub use choice::{Choice, pick};
pub use naming::auto_name;
