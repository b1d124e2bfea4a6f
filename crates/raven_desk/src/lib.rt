//! The desk: the one value on which every command answers its requests, the steps on it, and receipts of what was answered.
#![tactic(auto)]

mod course;
mod defining;
mod desk;
mod keeping;
mod live;
mod making;
mod one_desk;
mod opening;
mod publishing;
mod receipt;
mod settling;
mod shot;
mod step;
mod tidying;

pub use course::{Course, Pending, course_of};
pub use desk::Desk;
pub use live::Live;
pub use one_desk::OneDesk;
pub use opening::Unopened;
pub use receipt::Receipt;
pub use settling::Settled;
pub use shot::Shot;
