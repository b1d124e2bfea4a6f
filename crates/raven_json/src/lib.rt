//! JSON: from bytes to values, and back.
#![tactic(auto)]

mod convert;
mod decode;
mod direct;
mod document;
mod encode;
mod laws;
mod measure;
mod results;
mod scan;
mod splice;

pub use decode::{JsonRefusal, read};
pub use document::{document_in, document_of, metadata_of, value_of};
pub use encode::{write, write_text, write_to};
pub use laws::written_is_read;
pub use measure::text_len;
pub use results::{Shown, ShownList, ShownMembers};
pub use splice::write_shown;
