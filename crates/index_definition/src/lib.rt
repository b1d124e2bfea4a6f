//! Definitions of indexes: their types, whether two are the same, what one reads, the rows in which they are kept, and why texts are none.
#![tactic(auto)]

mod among;
mod definition;
mod order;
mod paths;
mod reading;
mod refusal;
mod rows;
mod shape;

pub use among::is_among;
pub use definition::{DefBody, Definition, auto_definition};
pub use order::{MAX_FIELD_BYTES, MAX_FIELDS, OrderedPaths, in_order};
pub use paths::{COUNT_NAME, joined_name, shape_names, sum_name};
pub use reading::{fields, same, scope};
pub use refusal::{LangKind, LangRefusal, Part};
pub use rows::row_body;
pub use shape::Shape;
