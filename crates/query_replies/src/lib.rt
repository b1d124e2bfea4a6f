//! What replies to queries are made of: documents as they are looked up and shown, whether an index lags, and the reply of what is found.
#![tactic(auto)]

mod documents;
mod reply;
mod stale;

pub use documents::{ShownBy, StoreRows, shown_metadata};
pub use reply::{answer_of, refused};
pub use stale::is_stale;
