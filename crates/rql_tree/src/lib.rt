//! The trees of queries: what the text of one says, without how it is spelled; and how its fields are printed.
#![tactic(auto)]

mod condition;
mod field;
mod operand;
mod printing;
mod query;

pub use condition::{Cond, CondKind};
pub use field::Field;
pub use operand::{CompareOp, Operand, Operands};
pub use printing::{add, add_field, add_part, add_path, add_quoted, print_field};
pub use query::{Column, Columns, Origin, Query, Sort, Sorts};
