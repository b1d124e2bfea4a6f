//! The command `measure`: a database of drawn orders, and its summary.
#![tactic(auto)]

mod catching_up;
mod definition;
mod draws;
mod filling;
mod making;
mod measuring;
mod options;
mod orders;
mod summary;

pub use measuring::{MeasureEnd, Measurement, measure};
pub use options::Options;
