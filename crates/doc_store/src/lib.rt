//! The store: the rows of a database, of which each change makes a new one and leaves the old one.
#![tactic(auto)]

mod opening;
mod page;
mod rows;
mod rows_by_etag;
mod sorting;
mod store;
mod tombstones;

pub use opening::OpenFault;
pub use rows::{Counts, last_etag};
pub use store::Store;
