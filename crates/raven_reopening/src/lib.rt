//! The laws of opening a database again from the rows that its keeper has, each the contract of a function without a body.
#![tactic(auto)]

mod kept;
mod runs;

pub use kept::{
    definitions_are_read_back, first_definitions_are_read_back, stored_rows_are_read_back,
    stores_open_again, what_is_read_is_sound,
};
pub use runs::{
    a_run_opens_again, a_script_opens_again, automatic_indexes_have_paths,
    definitions_agree_with_bodies, upgraded_rows_open_alike,
};
