//! From a value of `serde_json` to one of ours.
ghost use Rattle.std.specs.Prelude.{◌≡◌, Some, [], IfOk, IfErr};
ghost use Rattle.serde_json.specs.View.{view, items_view, members_view};
ghost use Rattle.raven_value.specs.View.{data_of};
ghost use Rattle.spec_data.specs.Json.{value_of as spec_value_of, items_of as spec_items_of, members_of as spec_members_of};
ghost use Rattle.raven_json.specs.Refusal.{Fails};

use crate::decode::JsonRefusal;
use raven_value::{Members, Text, Value, Values};
use serde_json::{Map, Value as Json};
use std::alloc::Global;

/// The value of a JSON value whose numbers are whole.
#[cycle(convert)]
pub(crate) fn value_of(alloc: Global, json: &Json) -> Result<Value, JsonRefusal>
    ensures ok { IfOk result (λ v. spec_value_of (view json.now) ≡ Some (data_of v)) }
    ensures err { IfErr result (λ e. Fails e (spec_value_of (view json.now))) }
{
    match json {
        Json::Null => Ok(Value::Null),
        Json::Bool(b) => Ok(Value::Flag(*b)),
        Json::Number(n) => match n.as_i64() {
            Some(n) => Ok(Value::Num(n)),
            None => Err(JsonRefusal::NumberNotWhole),
        },
        Json::String(s) => match Text::of(alloc, s.as_str()) {
            Ok(text) => Ok(Value::Text(text)),
            Err(_) => Err(JsonRefusal::NoMemory),
        },
        Json::Array(items) => match values_of(alloc, items) {
            Ok(values) => Ok(Value::List(values)),
            Err(refusal) => Err(refusal),
        },
        Json::Object(members) => match members_of(alloc, members) {
            Ok(members) => Ok(Value::Map(members)),
            Err(refusal) => Err(refusal),
        },
    }
}

#[cycle(convert)]
fn values_of(alloc: Global, items: &Vec<Json>) -> Result<Values, JsonRefusal>
    ensures ok { IfOk result (λ vs. spec_items_of (items_view items.now.items) [] ≡ Some vs) }
    ensures err { IfErr result (λ e. Fails e (spec_items_of (items_view items.now.items) [])) }
{
    let mut values = Values::new(alloc);
    for item in items {
        let value = match value_of(alloc, item) {
            Ok(value) => value,
            Err(refusal) => return Err(refusal),
        };
        if values.push(value).is_err() {
            return Err(JsonRefusal::NoMemory);
        }
    }
    Ok(values)
}

#[cycle(convert)]
fn members_of(alloc: Global, members: &Map<String, Json>) -> Result<Members, JsonRefusal>
    ensures ok { IfOk result (λ ms. spec_members_of (members_view members.now.entries) [] ≡ Some ms) }
    ensures err { IfErr result (λ e. Fails e (spec_members_of (members_view members.now.entries) [])) }
{
    let mut found = Members::new(alloc);
    for (key, member) in members.iter() {
        let value = match value_of(alloc, member) {
            Ok(value) => value,
            Err(refusal) => return Err(refusal),
        };
        let name = match Text::of(alloc, key.as_str()) {
            Ok(name) => name,
            Err(_) => return Err(JsonRefusal::NoMemory),
        };
        if found.put(name, value).is_err() {
            return Err(JsonRefusal::NoMemory);
        }
    }
    Ok(found)
}
