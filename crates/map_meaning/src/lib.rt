//! The laws of what the map of an index gives for a document, each the contract of a function without a body.
#![tactic(auto)]

mod laws;

pub use laws::{
    dates_are_read_alike, entries_rise, fields_make_an_entry, maps_are_local,
    maps_read_their_scope, numbers_are_of_64_bits,
};
