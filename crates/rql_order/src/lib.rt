//! The order in which a query asks for rows.
#![tactic(auto)]

mod order;
mod sorting;
mod value;

pub use order::in_order;
