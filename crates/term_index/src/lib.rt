//! The values of the fields of an index, in an order in which a test finds the ids whose values meet it.
#![tactic(auto)]

mod column;
mod counting;
mod edges;
mod key;
mod one_run;
mod pages;
mod sets;
mod steps;
mod terms;
mod values;
mod walks;

pub use counting::ValueCondition;
pub use sets::{common, union, without};
pub use terms::Terms;
pub use values::ValueOrder;
