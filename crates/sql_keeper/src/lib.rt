//! A keeper of rows in a database of SQLite.
#![tactic(auto)]

mod fault;
mod file;
mod file_keeper;
mod keeper;
mod open_fault;

pub use file_keeper::FileKeeper;
pub use keeper::SqlKeeper;
pub use open_fault::OpenFault;
