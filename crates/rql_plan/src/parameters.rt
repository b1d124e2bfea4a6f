//! Which parameter is refused.
ghost use Rattle.std.specs.Prelude.{◌≡◌, is_some, map, option_copied};
ghost use Rattle.std.specs.Option.{option_and_then, option_or};
ghost use Rattle.spec_data.specs.Data.{entries_of};
ghost use Rattle.spec_data.specs.Members.{member};
ghost use Rattle.raven_value.specs.ScalarView.{scalar_view};
ghost use Rattle.raven_value.specs.View.{data_of};
ghost use Rattle.spec_query.specs.Parameters.{AsItems, AsPrefix, AsScalar, first_refused, items_in, parameter_refused as spec_parameter_refused, plain_scalar, plain_scalars, unless_given, unless_text as spec_unless_text, use_refused, uses};
ghost use Rattle.spec_query.specs.Query.{Parameter as ParameterOf};
ghost use Rattle.rql_tree.specs.View.{operand_of};

use raven_value::{Members, Scalar, Text, Value};
use rql_tree::{Cond, CondKind, Operand, Operands};

fn is_plain(value: &Value) -> bool
    ensures { result ≡ is_some (plain_scalar (data_of value.now)) }
{
    match value {
        Value::Null | Value::Flag(_) | Value::Num(_) | Value::Text(_) => true,
        Value::List(_) | Value::Map(_) => false,
    }
}

/// Whether none of the values is a list or an object.
#[tactic(auto, using(crate::proofs::Plain::plain))]
pub fn are_plain(values: &[Value]) -> bool
    ensures { result ≡ is_some (plain_scalars (map data_of values.now)) }
{
    for value in values {
        if !is_plain(value) {
            return false;
        }
    }
    true
}

#[tactic(auto, using(crate::proofs::Plain::plain))]
fn has_items(value: &Value) -> bool
    ensures { result ≡ is_some (items_in (data_of value.now)) }
{
    match value {
        Value::Null | Value::Flag(_) | Value::Num(_) | Value::Text(_) => true,
        Value::List(values) => are_plain(values.as_slice()),
        Value::Map(_) => false,
    }
}

fn is_scalar(parameters: &Members, name: &Text) -> bool
    ensures { result ≡ is_some (option_and_then plain_scalar (member name.now (entries_of parameters.now))) }
{
    match parameters.get(name.as_str()) {
        Some(value) => is_plain(value),
        None => false,
    }
}

fn are_items(parameters: &Members, name: &Text) -> bool
    ensures { result ≡ is_some (option_and_then items_in (member name.now (entries_of parameters.now))) }
{
    match parameters.get(name.as_str()) {
        Some(value) => has_items(value),
        None => false,
    }
}

fn unless_scalar<'a>(parameters: &Members, operand: &'a Operand) -> Option<&'a str>
    ensures { option_copied result ≡ use_refused parameters.now (AsScalar (operand_of operand.now)) }
{
    match operand {
        Operand::Const(_) => None,
        Operand::Parameter(name) => {
            if is_scalar(parameters, name) {
                None
            } else {
                Some(name.as_str())
            }
        }
    }
}

fn unless_items<'a>(parameters: &Members, operand: &'a Operand) -> Option<&'a str>
    ensures { option_copied result ≡ use_refused parameters.now (AsItems (operand_of operand.now)) }
{
    match operand {
        Operand::Const(_) => None,
        Operand::Parameter(name) => {
            if are_items(parameters, name) {
                None
            } else {
                Some(name.as_str())
            }
        }
    }
}

fn unless_text(value: &Scalar) -> Option<&'static str>
    ensures { option_copied result ≡ spec_unless_text (scalar_view value.now) }
{
    match value {
        Scalar::Text(_) => None,
        Scalar::Null | Scalar::Flag(_) | Scalar::Num(_) => Some("startsWith"),
    }
}

fn unless_text_in<'a>(value: &Value, name: &'a Text) -> Option<&'a str>
    ensures { option_copied result ≡ option_or (unless_given (ParameterOf name.now) (plain_scalar (data_of value.now))) (option_and_then spec_unless_text (plain_scalar (data_of value.now))) }
{
    match value {
        Value::Text(_) => None,
        Value::Null | Value::Flag(_) | Value::Num(_) => Some("startsWith"),
        Value::List(_) | Value::Map(_) => Some(name.as_str()),
    }
}

fn unless_named_text<'a>(parameters: &Members, name: &'a Text) -> Option<&'a str>
    ensures { option_copied result ≡ use_refused parameters.now (AsPrefix (ParameterOf name.now)) }
{
    match parameters.get(name.as_str()) {
        Some(value) => unless_text_in(value, name),
        None => Some(name.as_str()),
    }
}

fn unless_prefix<'a>(parameters: &Members, operand: &'a Operand) -> Option<&'a str>
    ensures { option_copied result ≡ use_refused parameters.now (AsPrefix (operand_of operand.now)) }
{
    match operand {
        Operand::Const(value) => unless_text(value),
        Operand::Parameter(name) => unless_named_text(parameters, name),
    }
}

#[tactic(auto, using(crate::proofs::Refused::lists))]
fn first_in_list<'a>(parameters: &Members, operands: &'a Operands) -> Option<&'a str>
    ensures { option_copied result ≡ first_refused parameters.now (map AsItems (map operand_of operands.now)) }
{
    for operand in operands.as_slice() {
        if let Some(name) = unless_items(parameters, operand) {
            return Some(name);
        }
    }
    None
}

#[tactic(auto, using(crate::proofs::Refused::conditions))]
#[cycle(refused)]
fn first_in<'a>(parameters: &Members, cond: &'a Cond) -> Option<&'a str>
    ensures { option_copied result ≡ first_refused parameters.now (uses cond.now) }
{
    match cond.kind() {
        CondKind::Or(left, right) => first_in(parameters, left).or(first_in(parameters, right)),
        CondKind::And(left, right) => first_in(parameters, left).or(first_in(parameters, right)),
        CondKind::Not(inner) => first_in(parameters, inner),
        CondKind::Exact(inner) => first_in(parameters, inner),
        CondKind::True => None,
        CondKind::Starts(_, value) => unless_prefix(parameters, value),
        CondKind::Exists(_) => None,
        CondKind::Compare(_, _, value) => unless_scalar(parameters, value),
        CondKind::Between(_, low, high) => {
            unless_scalar(parameters, low).or(unless_scalar(parameters, high))
        }
        CondKind::In(_, values) => first_in_list(parameters, values),
    }
}

/// The name under which the first use of an operand is refused: that of a parameter that has no value that fits, or
/// `startsWith`, if its value is no text.
pub fn parameter_refused<'a>(parameters: &Members, cond: &'a Option<Cond>) -> Option<&'a str>
    ensures { option_copied result ≡ spec_parameter_refused parameters.now cond.now }
{
    match cond {
        Some(cond) => first_in(parameters, cond),
        None => None,
    }
}
