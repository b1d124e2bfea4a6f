//! Whether two trees are the same.
ghost use Rattle.std.specs.Prelude.{◌≡◌, ◌↔◌, IsTrue};

use crate::expression::{Expr, ExprKind};
use crate::map_query::{Clause, MapMember, MapQuery};
use crate::reduce_query::{FoldMember, FoldValue, ReduceQuery};
use raven_base::Sequence;
use raven_value::{Path, Text};

/// A type whose values are compared exactly, and lists of them too.
pub trait SameAs {
    /// Whether the other value is the same.
    fn same_as(&self, other: &Self) -> bool
        ensures { IsTrue result ↔ (self.now ≡ other.now) };
}

/// Whether two lists have the same values in the same order.
pub fn same_lists<T: SameAs>(a: &[T], b: &[T]) -> bool
    ensures { IsTrue result ↔ (a.now ≡ b.now) }
{
    let mut left = a;
    let mut right = b;
    while let [item, more @ ..] = left {
        let [other, others @ ..] = right else {
            return false;
        };
        if !item.same_as(other) {
            return false;
        }
        left = more;
        right = others;
    }
    right.is_empty()
}

impl<T: SameAs> SameAs for Sequence<T> {
    fn same_as(&self, other: &Sequence<T>) -> bool {
        same_lists(self.as_slice(), other.as_slice())
    }
}

impl SameAs for Text {
    fn same_as(&self, other: &Text) -> bool {
        *self == *other
    }
}

impl SameAs for Path {
    fn same_as(&self, other: &Path) -> bool {
        same_lists(self.as_slice(), other.as_slice())
    }
}

/// Whether two expressions are the same, names and all.
#[cycle(same)]
pub fn same_expr(a: &Expr, b: &Expr) -> bool
    ensures { IsTrue result ↔ (a.now ≡ b.now) }
{
    match (a.kind(), b.kind()) {
        (ExprKind::If(test, value, other), ExprKind::If(a_test, a_value, an_other)) => {
            same_expr(test, a_test) && same_expr(value, a_value) && same_expr(other, an_other)
        },
        (ExprKind::Binary(op, left, right), ExprKind::Binary(an_op, a_left, a_right)) => {
            *op == *an_op && same_expr(left, a_left) && same_expr(right, a_right)
        },
        (ExprKind::Unary(op, operand), ExprKind::Unary(an_op, an_operand)) => {
            *op == *an_op && same_expr(operand, an_operand)
        },
        (ExprKind::Dot(holder, name), ExprKind::Dot(a_holder, a_name)) => {
            *name == *a_name && same_expr(holder, a_holder)
        },
        (ExprKind::Load(id, collection), ExprKind::Load(an_id, a_collection)) => {
            *collection == *a_collection && same_expr(id, an_id)
        },
        (ExprKind::Num(number), ExprKind::Num(a_number)) => *number == *a_number,
        (ExprKind::Text(text), ExprKind::Text(a_text)) => *text == *a_text,
        (ExprKind::Flag(flag), ExprKind::Flag(a_flag)) => *flag == *a_flag,
        (ExprKind::Null, ExprKind::Null) => true,
        (ExprKind::Var(name), ExprKind::Var(a_name)) => *name == *a_name,
        _ => false,
    }
}

impl SameAs for Clause {
    fn same_as(&self, other: &Clause) -> bool {
        match (self, other) {
            (Clause::Where(test), Clause::Where(a_test)) => same_expr(test, a_test),
            (
                Clause::Let { var, value },
                Clause::Let {
                    var: a_var,
                    value: a_value,
                },
            ) => { *var == *a_var && same_expr(value, a_value) },
            _ => false,
        }
    }
}

impl SameAs for MapMember {
    fn same_as(&self, other: &MapMember) -> bool {
        self.name == other.name && same_expr(&self.value, &other.value)
    }
}

/// Whether two maps are the same, the names in them and all.
pub fn same_map(a: &MapQuery, b: &MapQuery) -> bool
    ensures { IsTrue result ↔ (a.now ≡ b.now) }
{
    a.var == b.var
        && a.collection == b.collection
        && a.clauses.same_as(&b.clauses)
        && a.members.same_as(&b.members)
}

impl SameAs for FoldValue {
    fn same_as(&self, other: &FoldValue) -> bool {
        match (self, other) {
            (FoldValue::Key(name), FoldValue::Key(a_name)) => *name == *a_name,
            (
                FoldValue::Fold { kind, var, field },
                FoldValue::Fold {
                    kind: a_kind,
                    var: a_var,
                    field: a_field,
                },
            ) => *kind == *a_kind && *var == *a_var && *field == *a_field,
            (
                FoldValue::Quotient {
                    var,
                    field,
                    by_var,
                    by,
                },
                FoldValue::Quotient {
                    var: a_var,
                    field: a_field,
                    by_var: a_by_var,
                    by: a_by,
                },
            ) => *var == *a_var && *field == *a_field && *by_var == *a_by_var && *by == *a_by,
            _ => false,
        }
    }
}

impl SameAs for FoldMember {
    fn same_as(&self, other: &FoldMember) -> bool {
        self.name == other.name && self.value.same_as(&other.value)
    }
}

/// Whether two reduces are the same, the names in them and all.
pub fn same_reduce(a: &ReduceQuery, b: &ReduceQuery) -> bool
    ensures { IsTrue result ↔ (a.now ≡ b.now) }
{
    a.var == b.var && a.group == b.group && a.key.same_as(&b.key) && a.members.same_as(&b.members)
}
