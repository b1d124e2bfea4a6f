//! What is shown of the documents that a query finds, and which documents it includes.
#![tactic(auto)]

mod documents;
mod include;
mod rows;
mod select;
mod show;
mod under_ids;

pub use documents::{Found, documents_of};
pub use include::included;
pub use rows::{included_by_rows, results_of_rows};
pub use select::results_of;
pub use show::Show;
