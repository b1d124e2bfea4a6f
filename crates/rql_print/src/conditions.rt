//! Conditions.
ghost use Rattle.std.specs.Prelude.{◌≡◌, ◌++◌, OnOk, map, string_bytes};
ghost use Rattle.rql_print.specs.Print.{cond_text, is_compound as spec_is_compound, operand_text, sign as spec_sign};
ghost use Rattle.spec_query.specs.Query.{Between as BetweenOf, Compare as CompareOf, Exists as ExistsOf, In as InOf, Starts as StartsOf};
ghost use Rattle.rql_tree.specs.View.{field_of, op_of, operand_of};

use crate::values::{add_value, add_values};
use raven_base::NoMemory;
use rql_tree::{CompareOp, Cond, CondKind, Field, Operand, Operands, add, add_field};
use std::alloc::Global;

// With the spaces round it.
fn sign(op: CompareOp) -> &'static str
    ensures { result.now ≡ spec_sign (op_of op) }
{
    match op {
        CompareOp::Is => " = ",
        CompareOp::Not => " != ",
        CompareOp::Below => " < ",
        CompareOp::AtMost => " <= ",
        CompareOp::Above => " > ",
        CompareOp::AtLeast => " >= ",
    }
}

fn is_compound(cond: &Cond) -> bool
    ensures { result ≡ spec_is_compound cond.now }
{
    match cond.kind() {
        CondKind::Or(..) | CondKind::And(..) | CondKind::Not(..) => true,
        _ => false,
    }
}

fn add_starts(
    alloc: Global,
    out: &mut String,
    field: &Field,
    value: &Operand,
) -> Result<(), NoMemory>
    ensures { OnOk result (string_bytes out.new ≡ string_bytes out.old ++ cond_text (StartsOf (field_of field.now) (operand_of value.now))) }
{
    add(out, "startsWith(")?;
    add_field(out, field)?;
    add(out, ", ")?;
    add_value(alloc, out, value)?;
    add(out, ")")
}

fn add_exists(out: &mut String, field: &Field) -> Result<(), NoMemory>
    ensures { OnOk result (string_bytes out.new ≡ string_bytes out.old ++ cond_text (ExistsOf (field_of field.now))) }
{
    add(out, "exists(")?;
    add_field(out, field)?;
    add(out, ")")
}

fn add_comparison(
    alloc: Global,
    out: &mut String,
    field: &Field,
    op: CompareOp,
    value: &Operand,
) -> Result<(), NoMemory>
    ensures { OnOk result (string_bytes out.new ≡ string_bytes out.old ++ cond_text (CompareOf (field_of field.now) (op_of op) (operand_of value.now))) }
{
    add_field(out, field)?;
    add(out, sign(op))?;
    add_value(alloc, out, value)
}

fn add_between(
    alloc: Global,
    out: &mut String,
    field: &Field,
    low: &Operand,
    high: &Operand,
) -> Result<(), NoMemory>
    ensures { OnOk result (string_bytes out.new ≡ string_bytes out.old ++ cond_text (BetweenOf (field_of field.now) (operand_of low.now) (operand_of high.now))) }
{
    add_field(out, field)?;
    add(out, " between ")?;
    add_value(alloc, out, low)?;
    add(out, " and ")?;
    add_value(alloc, out, high)
}

fn add_in(alloc: Global, out: &mut String, field: &Field, values: &Operands) -> Result<(), NoMemory>
    ensures { OnOk result (string_bytes out.new ≡ string_bytes out.old ++ cond_text (InOf (field_of field.now) (map operand_of values.now))) }
{
    add_field(out, field)?;
    add(out, " in (")?;
    add_values(alloc, out, "", values.as_slice())?;
    add(out, ")")
}

/// Adds the text of a condition.
#[cycle(condition)]
pub fn add_condition(alloc: Global, out: &mut String, cond: &Cond) -> Result<(), NoMemory>
    ensures { OnOk result (string_bytes out.new ≡ string_bytes out.old ++ cond_text cond.now) }
{
    match cond.kind() {
        CondKind::Or(left, right) => {
            add_operand(alloc, out, left)?;
            add(out, " or ")?;
            add_operand(alloc, out, right)
        }
        CondKind::And(left, right) => {
            add_operand(alloc, out, left)?;
            add(out, " and ")?;
            add_operand(alloc, out, right)
        }
        CondKind::Not(inner) => {
            add(out, "not ")?;
            add_operand(alloc, out, inner)
        }
        CondKind::Exact(inner) => {
            add(out, "exact(")?;
            add_condition(alloc, out, inner)?;
            add(out, ")")
        }
        CondKind::True => add(out, "true"),
        CondKind::Starts(field, value) => add_starts(alloc, out, field, value),
        CondKind::Exists(field) => add_exists(out, field),
        CondKind::Compare(field, op, value) => add_comparison(alloc, out, field, *op, value),
        CondKind::Between(field, low, high) => add_between(alloc, out, field, low, high),
        CondKind::In(field, values) => add_in(alloc, out, field, values),
    }
}

#[cycle(condition)]
fn add_operand(alloc: Global, out: &mut String, cond: &Cond) -> Result<(), NoMemory>
    ensures { OnOk result (string_bytes out.new ≡ string_bytes out.old ++ operand_text cond.now) }
{
    if is_compound(cond) {
        add(out, "(")?;
        add_condition(alloc, out, cond)?;
        add(out, ")")
    } else {
        add_condition(alloc, out, cond)
    }
}
