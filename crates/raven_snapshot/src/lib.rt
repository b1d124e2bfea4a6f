//! A database as it stands: what is asked of it and changes nothing.
#![tactic(auto)]

mod answer;
mod answered;
mod ask;
mod entries;
mod find;
mod listing;
mod snapshot;

pub use answered::Answered;
pub use snapshot::Snapshot;
