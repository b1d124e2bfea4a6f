//! An index as far as it has come: its definition, the documents that it has recorded, and what its map gives for each.
#![tactic(auto)]

mod asking;
mod auto_reduce;
mod given;
mod kept;
mod mapping;
mod regrouping;
mod renewal;
mod results;
mod table;
mod terms;
mod together;
mod touched;
mod version;

pub use mapping::DefinitionMapper;
pub use table::{Table, is_document};
pub use together::rows_together;
pub use version::IndexVersion;
