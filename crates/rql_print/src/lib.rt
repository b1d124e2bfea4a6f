//! The canonical text of a query: one text for each tree.
#![tactic(auto)]

mod clauses;
mod conditions;
mod query;
mod values;

pub use query::print;
