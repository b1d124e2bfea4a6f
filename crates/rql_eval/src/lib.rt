//! What a query finds: in an index, among the rows of a reduce, and in a whole collection.
#![tactic(auto)]

mod finding;
mod ordered;
mod page;
mod reading;
mod rows;
mod walk;
mod whole;

pub use finding::{Found, find, ids_that_meet};
pub use page::{Page, page_of};
pub use rows::find_in_rows;
pub use walk::page_len;
pub use whole::find_all;
