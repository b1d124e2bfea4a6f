//! The definition of an index, in the body of a request.
ghost use Rattle.std.specs.Prelude.{◌≡◌, map, option_map};
ghost use Rattle.raven_value.specs.View.{data_of};
ghost use Rattle.spec_server.specs.Texts.{asked_to_define};
ghost use Rattle.spec_http.specs.Requests as spec;
ghost use Rattle.raven_request.specs.RequestRead.{Asks, AsksBy};
ghost use Rattle.raven_request.specs.RequestView.{define_view};
ghost use Rattle.http_front.specs.Lists.{lone_object as spec_lone_object};

use index_lang::TextDefinition;
use raven_request::{ReadRefusal, Request, bad_member, definition_of, json_of};
use raven_value::Value;
use std::alloc::Global;

// The object of a list of one object.
#[tactic(auto, using(crate::proofs::IndexLemmas::lists))]
fn lone_object(values: &[Value]) -> Option<&Value>
    ensures { option_map (λ v. data_of v.now) result ≡ spec_lone_object (map data_of values.now) }
{
    let [value] = values else {
        return None;
    };
    match value {
        Value::Map(_) => Some(value),
        _ => None,
    }
}

// The one definition of a list of one.
#[tactic(auto, using(crate::proofs::IndexLemmas::indexes))]
fn only_definition(alloc: Global, value: Option<&Value>) -> Result<TextDefinition, ReadRefusal>
    ensures { AsksBy define_view (asked_to_define (spec.only_definition (option_map (λ v. data_of v.now) value.entry))) result }
{
    let Some(Value::List(values)) = value else {
        return Err(bad_member(alloc, "Indexes"));
    };
    match lone_object(values.as_slice()) {
        Some(definition) => definition_of(alloc, definition),
        None => Err(bad_member(alloc, "Indexes")),
    }
}

#[tactic(auto, using(crate::proofs::IndexLemmas::bodies))]
fn definition_in(alloc: Global, value: &Value) -> Result<TextDefinition, ReadRefusal>
    ensures { AsksBy define_view (asked_to_define (spec.texts_of_indexes (data_of value.now))) result }
{
    match value {
        Value::Map(members) => only_definition(alloc, members.get("Indexes")),
        _ => Err(bad_member(alloc, "body")),
    }
}

/// The definition of this body, which has a list of one in its member `Indexes`.
#[tactic(auto, using(crate::proofs::IndexLemmas::texts))]
pub fn define_index(alloc: Global, body: &[u8]) -> Result<Request, ReadRefusal>
    ensures { Asks (asked_to_define (spec.define_index body.now)) result }
{
    let value = json_of(alloc, body)?;
    let definition = definition_in(alloc, &value)?;
    Ok(Request::Define { definition })
}
