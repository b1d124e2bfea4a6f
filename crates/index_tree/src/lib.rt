//! The trees of index definitions: what a map and a reduce say, without how they are spelled; and, in its definitions, what they mean.
#![tactic(auto)]

mod expression;
mod map_query;
mod reduce_query;
mod same;

pub use expression::{BinaryOp, Expr, ExprKind, UnaryOp};
pub use map_query::{Clause, Clauses, MapMember, MapMembers, MapQuery};
pub use reduce_query::{FoldKind, FoldMember, FoldMembers, FoldValue, ReduceQuery, Texts};
pub use same::{SameAs, same_expr, same_lists, same_map, same_reduce};
