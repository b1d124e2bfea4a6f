//! Crews: what runs jobs beside one another, each in a thread of its own.
#![tactic(auto)]

mod crew;
mod each;
mod job;
mod mem_crew;
mod outcomes;
mod start;
mod together;

pub use crew::{Crew, Way};
pub use job::Job;
pub use mem_crew::MemCrew;
pub use together::CrewFault;
