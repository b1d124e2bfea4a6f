//! The laws that texts of definitions and of queries, and the lines and stored rows that hold such texts, are read in one way, and of what
//! lines ask.
#![tactic(auto)]

mod laws;

pub use laws::{
    lines_are_read_one_way, lines_are_well_formed, lines_come_from_clients,
    queries_are_read_one_way, queries_name_paths, rows_open_one_way, texts_are_read_one_way,
};
