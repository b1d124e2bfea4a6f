//! Requests: what clients ask, the JSON and the texts that it is read from, and the replies to those that are refused.
#![tactic(auto)]

mod body;
mod commands;
mod definition;
mod query;
mod refusal;
mod request;
mod several;

pub use body::{bad_member, delete_of, id_of, json_of, name_of, object_of, put_of};
pub use commands::bulk_of;
pub use definition::{define_of, definition_of};
pub use query::{ask_of, mask_of_json, query_of, query_of_json};
pub use refusal::reply_to_refusal;
pub use request::{ReadRefusal, Request};
pub use several::{multi_of, parts_of};
