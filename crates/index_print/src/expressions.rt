//! Expressions.
ghost use Rattle.std.specs.Prelude.{◌≡◌, ◌++◌, OnOk, string_bytes};
ghost use Rattle.index_tree.specs.Trees.{Binary as BinaryTree, If as IfTree, Load as LoadTree};
ghost use Rattle.index_print.specs.Print.{sign as spec_sign, mark as spec_mark, is_compound as spec_is_compound, operand, printed};

use crate::quoting::{add, add_quoted};
use index_tree::{BinaryOp, Expr, ExprKind, UnaryOp};
use raven_base::NoMemory;
use std::alloc::Global;

fn sign(op: BinaryOp) -> &'static str
    ensures { result.now ≡ spec_sign op }
{
    match op {
        BinaryOp::Or => "||",
        BinaryOp::And => "&&",
        BinaryOp::Equal => "==",
        BinaryOp::NotEqual => "!=",
        BinaryOp::Below => "<",
        BinaryOp::AtMost => "<=",
        BinaryOp::Above => ">",
        BinaryOp::AtLeast => ">=",
        BinaryOp::Plus => "+",
        BinaryOp::Minus => "-",
        BinaryOp::Times => "*",
        BinaryOp::Over => "/",
        BinaryOp::Rest => "%",
    }
}

fn mark(op: UnaryOp) -> &'static str
    ensures { result.now ≡ spec_mark op }
{
    match op {
        UnaryOp::Bang => "!",
        UnaryOp::Minus => "-",
    }
}

fn is_compound(expr: &Expr) -> bool
    ensures { result ≡ spec_is_compound expr.now }
{
    match expr.kind() {
        ExprKind::If(..) | ExprKind::Binary(..) | ExprKind::Unary(..) => true,
        _ => false,
    }
}

#[cycle(expression)]
fn add_conditional(
    alloc: Global,
    out: &mut String,
    test: &Expr,
    value: &Expr,
    other: &Expr,
) -> Result<(), NoMemory>
    ensures { OnOk result (string_bytes out.new ≡ string_bytes out.old ++ printed (IfTree test.now value.now other.now)) }
{
    add_operand(alloc, out, test)?;
    add(out, " ? ")?;
    add_operand(alloc, out, value)?;
    add(out, " : ")?;
    add_operand(alloc, out, other)
}

#[cycle(expression)]
fn add_binary(
    alloc: Global,
    out: &mut String,
    op: BinaryOp,
    left: &Expr,
    right: &Expr,
) -> Result<(), NoMemory>
    ensures { OnOk result (string_bytes out.new ≡ string_bytes out.old ++ printed (BinaryTree op left.now right.now)) }
{
    add_operand(alloc, out, left)?;
    add(out, " ")?;
    add(out, sign(op))?;
    add(out, " ")?;
    add_operand(alloc, out, right)
}

#[cycle(expression)]
fn add_load(alloc: Global, out: &mut String, id: &Expr, collection: &str) -> Result<(), NoMemory>
    ensures { OnOk result (string_bytes out.new ≡ string_bytes out.old ++ printed (LoadTree id.now collection.now)) }
{
    add(out, "LoadDocument(")?;
    add_expression(alloc, out, id)?;
    add(out, ", ")?;
    add_quoted(out, collection)?;
    add(out, ")")
}

/// Adds the canonical spelling of an expression at the end.
#[cycle(expression)]
pub fn add_expression(alloc: Global, out: &mut String, expr: &Expr) -> Result<(), NoMemory>
    ensures { OnOk result (string_bytes out.new ≡ string_bytes out.old ++ printed expr.now) }
{
    match expr.kind() {
        ExprKind::If(test, value, other) => add_conditional(alloc, out, test, value, other),
        ExprKind::Binary(op, left, right) => add_binary(alloc, out, *op, left, right),
        ExprKind::Unary(op, value) => {
            add(out, mark(*op))?;
            add_operand(alloc, out, value)
        }
        ExprKind::Dot(value, name) => {
            add_operand(alloc, out, value)?;
            add(out, ".")?;
            add(out, name.as_str())
        }
        ExprKind::Load(id, collection) => add_load(alloc, out, id, collection.as_str()),
        ExprKind::Num(number) => add(out, number.to_string(alloc)?.as_str()),
        ExprKind::Text(text) => add_quoted(out, text.as_str()),
        ExprKind::Flag(true) => add(out, "true"),
        ExprKind::Flag(false) => add(out, "false"),
        ExprKind::Null => add(out, "null"),
        ExprKind::Var(name) => add(out, name.as_str()),
    }
}

#[cycle(expression)]
fn add_operand(alloc: Global, out: &mut String, expr: &Expr) -> Result<(), NoMemory>
    ensures { OnOk result (string_bytes out.new ≡ string_bytes out.old ++ operand expr.now) }
{
    if is_compound(expr) {
        add(out, "(")?;
        add_expression(alloc, out, expr)?;
        add(out, ")")
    } else {
        add_expression(alloc, out, expr)
    }
}
