//! How a row is stored, and which stored rows are those of a database.
#![tactic(auto)]

mod form;
mod keeping;
mod loading;

pub use form::row_of;
pub use keeping::{all_kept, kept};
pub use loading::{LoadFault, load};
