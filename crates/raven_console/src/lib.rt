//! The program, over any input, output, keeper and clock: it reads its arguments, and does the command that they ask for.
#![tactic(auto)]

mod arguments;
mod options;
mod pairs;
mod program;
mod status;

pub use arguments::outside;
pub use options::Outside;
pub use program::{Finish, raven};
pub use status::Status;
