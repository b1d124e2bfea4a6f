//! The canonical spelling of maps and reduces: one text for each tree, which is read back as that tree.
#![tactic(auto)]

mod expressions;
mod laws;
mod maps;
mod quoting;
mod reduces;

pub use laws::{
    printed_expressions_are_spelled, printed_maps_are_read_back, printed_maps_are_spelled,
    printed_reduces_are_read_back, printed_reduces_are_spelled, spelled_expressions_are_spellable,
    spelled_maps_are_spellable, spelled_reduces_are_spellable,
};
pub use maps::print_map;
pub use reduces::print_reduce;
