//! Values in place of parameters.
ghost use Rattle.std.specs.Prelude.{◌≡◌, ◌++◌, [], IfOk, OnOk, flat_map, map, unwrap_or};
ghost use Rattle.spec_data.specs.Scalars.{Between as BetweenTest, In as InTest, Starts as StartsTest, There as ThereTest, scalar_of, words_in};
ghost use Rattle.raven_value.specs.ScalarView.{scalar_view, test_view};
ghost use Rattle.raven_value.specs.View.{data_of};
ghost use Rattle.spec_query.specs.Condition.{Always, And as AndOf, Exact as ExactOf, Has as HasTest, Not as NotOf, Or as OrOf};
ghost use Rattle.spec_query.specs.Parameters.{bound as spec_bound, bound_where as spec_bound_where, items_given, items_in, scalar_in as spec_scalar_in, scalars_in as spec_scalars_in, test_of as spec_test_of};
ghost use Rattle.spec_query.specs.Results.{field_name as spec_field_name};
ghost use Rattle.rql_tree.specs.View.{field_of, op_of, operand_of};

use crate::condition::{Condition, ConditionKind};
use crate::naming::field_name;
use crate::parameters::are_plain;
use raven_base::NoMemory;
use raven_value::{Members, Scalar, Scalars, Test, Text, Value};
use rql_tree::{CompareOp, Cond, CondKind, Field, Operand, Operands};
use std::alloc::Global;

#[tactic(auto, using(crate::proofs::Plain::values))]
fn scalar_in(parameters: &Members, operand: &Operand) -> Result<Scalar, NoMemory>
    ensures { IfOk result (λ value. scalar_view value ≡ spec_scalar_in parameters.now (operand_of operand.now)) }
{
    match operand {
        Operand::Const(value) => Ok(value.clone()?),
        Operand::Parameter(name) => match parameters.get(name.as_str()) {
            Some(value) => value.scalar(),
            None => Ok(Scalar::Null),
        },
    }
}

fn add_all(values: &[Value], items: &mut Scalars) -> Result<(), NoMemory>
    ensures { OnOk result (map scalar_view items.new ≡ map scalar_view items.old ++ map scalar_of (map data_of values.now)) }
{
    for value in values {
        items.push(value.scalar()?)?;
    }
    Ok(())
}

#[tactic(auto, using(crate::proofs::Plain::values))]
fn add_items_in(value: &Value, items: &mut Scalars) -> Result<(), NoMemory>
    ensures { OnOk result (map scalar_view items.new ≡ map scalar_view items.old ++ unwrap_or (items_in (data_of value.now)) []) }
{
    match value {
        Value::Null | Value::Flag(_) | Value::Num(_) | Value::Text(_) => {
            items.push(value.scalar()?)
        }
        Value::List(values) => {
            if are_plain(values.as_slice()) {
                add_all(values.as_slice(), items)
            } else {
                Ok(())
            }
        }
        Value::Map(_) => Ok(()),
    }
}

// The values for which an operand in a list stands.
fn add_items(parameters: &Members, operand: &Operand, items: &mut Scalars) -> Result<(), NoMemory>
    ensures { OnOk result (map scalar_view items.new ≡ map scalar_view items.old ++ unwrap_or (items_given parameters.now (operand_of operand.now)) []) }
{
    match operand {
        Operand::Const(value) => items.push(value.clone()?),
        Operand::Parameter(name) => match parameters.get(name.as_str()) {
            Some(value) => add_items_in(value, items),
            None => Ok(()),
        },
    }
}

fn scalars_in(alloc: Global, parameters: &Members, operands: &Operands) -> Result<Scalars, NoMemory>
    ensures { IfOk result (λ values. map scalar_view values ≡ spec_scalars_in parameters.now (map operand_of operands.now)) }
{
    let mut items = Scalars::new(alloc);
    for operand in operands.as_slice() {
        add_items(parameters, operand, &mut items)?;
    }
    Ok(items)
}

fn words_of(alloc: Global, value: &Scalar) -> Result<Text, NoMemory>
    ensures { IfOk result (λ text. text ≡ words_in (scalar_view value.now)) }
{
    match value {
        Scalar::Text(text) => Ok(text.clone()?),
        Scalar::Null => Text::of(alloc, ""),
        Scalar::Flag(_) => Text::of(alloc, ""),
        Scalar::Num(_) => Text::of(alloc, ""),
    }
}

fn test_of(op: CompareOp, value: Scalar) -> Test
    ensures { test_view result ≡ spec_test_of (op_of op) (scalar_view value) }
{
    match op {
        CompareOp::Is => Test::Is(value),
        CompareOp::Not => Test::Not(value),
        CompareOp::Below => Test::Below(value),
        CompareOp::AtMost => Test::AtMost(value),
        CompareOp::Above => Test::Above(value),
        CompareOp::AtLeast => Test::AtLeast(value),
    }
}

fn has(alloc: Global, field: &Field, test: Test) -> Result<Condition, NoMemory>
    ensures { IfOk result (λ condition. condition ≡ HasTest (spec_field_name (field_of field.now)) (test_view test)) }
{
    let name = field_name(alloc, field)?;
    Condition::of(alloc, ConditionKind::Has(name, test))
}

// What `bound` calls is not inlined, so that its own frame stays small.

#[inline(never)]
fn starts(
    alloc: Global,
    parameters: &Members,
    field: &Field,
    value: &Operand,
) -> Result<Condition, NoMemory>
    ensures { IfOk result (λ condition. condition ≡ HasTest (spec_field_name (field_of field.now)) (StartsTest (words_in (spec_scalar_in parameters.now (operand_of value.now))))) }
{
    let words = words_of(alloc, &scalar_in(parameters, value)?)?;
    has(alloc, field, Test::Starts(words))
}

#[inline(never)]
fn exists(alloc: Global, field: &Field) -> Result<Condition, NoMemory>
    ensures { IfOk result (λ condition. condition ≡ HasTest (spec_field_name (field_of field.now)) ThereTest) }
{
    has(alloc, field, Test::There)
}

#[inline(never)]
fn compare(
    alloc: Global,
    parameters: &Members,
    field: &Field,
    op: CompareOp,
    value: &Operand,
) -> Result<Condition, NoMemory>
    ensures { IfOk result (λ condition. condition ≡ HasTest (spec_field_name (field_of field.now)) (spec_test_of (op_of op) (spec_scalar_in parameters.now (operand_of value.now)))) }
{
    has(alloc, field, test_of(op, scalar_in(parameters, value)?))
}

#[inline(never)]
fn between(
    alloc: Global,
    parameters: &Members,
    field: &Field,
    low: &Operand,
    high: &Operand,
) -> Result<Condition, NoMemory>
    ensures { IfOk result (λ condition. condition ≡ HasTest (spec_field_name (field_of field.now)) (BetweenTest (spec_scalar_in parameters.now (operand_of low.now)) (spec_scalar_in parameters.now (operand_of high.now)))) }
{
    let low = scalar_in(parameters, low)?;
    let high = scalar_in(parameters, high)?;
    has(alloc, field, Test::Between(low, high))
}

#[inline(never)]
fn is_in(
    alloc: Global,
    parameters: &Members,
    field: &Field,
    operands: &Operands,
) -> Result<Condition, NoMemory>
    ensures { IfOk result (λ condition. condition ≡ HasTest (spec_field_name (field_of field.now)) (InTest (spec_scalars_in parameters.now (map operand_of operands.now)))) }
{
    let values = scalars_in(alloc, parameters, operands)?;
    has(alloc, field, Test::In(values))
}

#[inline(never)]
fn either(alloc: Global, left: Condition, right: Condition) -> Result<Condition, NoMemory>
    ensures { IfOk result (λ condition. condition ≡ OrOf left right) }
{
    Condition::of(alloc, ConditionKind::Or(left, right))
}

#[inline(never)]
fn both(alloc: Global, left: Condition, right: Condition) -> Result<Condition, NoMemory>
    ensures { IfOk result (λ condition. condition ≡ AndOf left right) }
{
    Condition::of(alloc, ConditionKind::And(left, right))
}

#[inline(never)]
fn negated(alloc: Global, inner: Condition) -> Result<Condition, NoMemory>
    ensures { IfOk result (λ condition. condition ≡ NotOf inner) }
{
    Condition::of(alloc, ConditionKind::Not(inner))
}

#[inline(never)]
fn exactly(alloc: Global, inner: Condition) -> Result<Condition, NoMemory>
    ensures { IfOk result (λ condition. condition ≡ ExactOf inner) }
{
    Condition::of(alloc, ConditionKind::Exact(inner))
}

#[inline(never)]
fn always(alloc: Global) -> Result<Condition, NoMemory>
    ensures { IfOk result (λ condition. condition ≡ Always) }
{
    Condition::of(alloc, ConditionKind::Always)
}

// It is entered once for each part within another, of which a query may have 8,000.
#[cycle(bound)]
fn bound(alloc: Global, parameters: &Members, cond: &Cond) -> Result<Condition, NoMemory>
    ensures { IfOk result (λ condition. condition ≡ spec_bound parameters.now cond.now) }
{
    match cond.kind() {
        CondKind::Or(left, right) => {
            let left = bound(alloc, parameters, left)?;
            let right = bound(alloc, parameters, right)?;
            either(alloc, left, right)
        }
        CondKind::And(left, right) => {
            let left = bound(alloc, parameters, left)?;
            let right = bound(alloc, parameters, right)?;
            both(alloc, left, right)
        }
        CondKind::Not(inner) => negated(alloc, bound(alloc, parameters, inner)?),
        CondKind::Exact(inner) => exactly(alloc, bound(alloc, parameters, inner)?),
        CondKind::True => always(alloc),
        CondKind::Starts(field, value) => starts(alloc, parameters, field, value),
        CondKind::Exists(field) => exists(alloc, field),
        CondKind::Compare(field, op, value) => compare(alloc, parameters, field, *op, value),
        CondKind::Between(field, low, high) => between(alloc, parameters, field, low, high),
        CondKind::In(field, values) => is_in(alloc, parameters, field, values),
    }
}

/// The condition of a query, of whose parameters none is refused. Without one all rows meet it.
pub fn bound_where(
    alloc: Global,
    parameters: &Members,
    cond: &Option<Cond>,
) -> Result<Condition, NoMemory>
    ensures { IfOk result (λ condition. condition ≡ spec_bound_where parameters.now cond.now) }
{
    match cond {
        Some(cond) => bound(alloc, parameters, cond),
        None => Condition::of(alloc, ConditionKind::Always),
    }
}
