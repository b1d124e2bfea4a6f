//! Replies, and what is printed of them.
#![tactic(auto)]

mod error;
mod moment;
mod named;
mod piece;
mod reply;
mod text;
mod values;

pub use moment::moment_text;
pub use named::{index_reply, no_index};
pub use reply::{BulkResult, BulkResults, IndexNames, Listing, Listings, Pumping, Pumpings, Reply};
pub use text::reply_text;
