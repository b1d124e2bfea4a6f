//! Reads HTTP requests from a source of bytes, one after another.
#![tactic(auto)]

mod body;
mod end;
mod fields;
mod head;
mod laws;
mod line;
mod reader;
mod request;
mod target;
mod window;

pub use end::HttpEnd;
pub use laws::{bytes_have_one_next, bytes_have_one_reading};
pub use reader::HttpReader;
pub use request::HttpRequest;
