//! Definitions of indexes from their texts, and from the rows in which they are kept.
#![tactic(auto)]

mod body;
mod by_texts;
mod groups;
mod laws;
mod members;
mod names;
mod parsing;
mod paths;
mod reading;
mod reduces;

pub use body::of_row_body;
pub use by_texts::{TextDefinition, parse_texts};
pub use groups::unbound_in_reduce;
pub use index_definition::{
    DefBody, Definition, LangKind, LangRefusal, Part, Shape, auto_definition, fields, joined_name,
    row_body, same, scope,
};
pub use index_tree::{
    BinaryOp, Clause, Clauses, Expr, ExprKind, FoldKind, FoldMember, FoldMembers, FoldValue,
    MapMember, MapMembers, MapQuery, ReduceQuery, UnaryOp,
};
pub use laws::{texts_have_one_answer, what_texts_say_reduces_again};
pub use members::{Field, duplicate, fields_agree, irreducible};
pub use names::unbound_name;
pub use parsing::{MAX_TEXT, parse};
pub use reading::{ReadMap, ReadReduce, Trees};
pub use reduces::same_reduce;
