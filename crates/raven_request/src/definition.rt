//! The definition of an index, in JSON.
ghost use Rattle.std.specs.Prelude.{◌≡◌, Option, Some, map, option_map};
ghost use Rattle.index_lang.specs.Bodies.{texts_behind};
ghost use Rattle.raven_value.specs.View.{data_of};
ghost use Rattle.raven_request.specs.Lists.{lone_text as spec_lone_text};
ghost use Rattle.raven_request.specs.RequestRead.{Asks, AsksBy};
ghost use Rattle.raven_request.specs.RequestView.{Reads, define_view};
ghost use Rattle.spec_data.specs.Data.{Data, entries_of};
ghost use Rattle.spec_server.specs.Texts.{Defining, asked_to_define, index_of, map_member as spec_map_member, name_member as spec_name_member, reduce_member as spec_reduce_member, texts_in as spec_texts_in, texts_of_body as spec_texts_of_body};

use crate::body::{bad_member, json_of, name_of};
use crate::request::{ReadRefusal, Request};
use index_definition::LangRefusal;
use index_lang::{TextDefinition, parse_texts};
use raven_value::{Members, Name, Text, Value};
use std::alloc::Global;

/// The text of the map, and that of the reduce, if there is one.
pub type Texts<'a> = (&'a str, Option<&'a str>);

#[tactic(auto, using(crate::proofs::Readings::members))]
fn name_member(alloc: Global, value: Option<&Value>) -> Result<Name, ReadRefusal>
    ensures { Reads (λ name. name) result (spec_name_member (option_map (λ v. data_of v.now) value.entry)) }
{
    match value {
        Some(Value::Text(text)) => name_of(alloc, text.as_str()),
        _ => Err(bad_member(alloc, "Name")),
    }
}

// The text of a list of one text.
#[tactic(auto, using(crate::proofs::Maps::lists))]
fn lone_text(values: &[Value]) -> Option<&Text>
    ensures { option_map (λ t. t.now) result ≡ spec_lone_text (map data_of values.now) }
{
    let [value] = values else {
        return None;
    };
    match value {
        Value::Text(text) => Some(text),
        _ => None,
    }
}

// The same, whatever else there is.
#[tactic(auto, using(crate::proofs::Maps::maps))]
fn only_text(alloc: Global, maps: &Value) -> Result<&str, ReadRefusal>
    ensures { (map : Option Data) → Reads (λ text. text.now) result (spec_map_member (Some (data_of maps.now)) map) }
{
    let Value::List(values) = maps else {
        return Err(bad_member(alloc, "Maps"));
    };
    match lone_text(values.as_slice()) {
        Some(text) => Ok(text.as_str()),
        None => Err(bad_member(alloc, "Maps")),
    }
}

#[tactic(auto, using(crate::proofs::Readings::members))]
fn map_member<'a>(
    alloc: Global,
    maps: Option<&'a Value>,
    map: Option<&'a Value>,
) -> Result<&'a str, ReadRefusal>
    ensures { Reads (λ text. text.now) result (spec_map_member (option_map (λ v. data_of v.now) maps.entry) (option_map (λ v. data_of v.now) map.entry)) }
{
    if let Some(maps) = maps {
        return only_text(alloc, maps);
    }
    match map {
        Some(Value::Text(text)) => Ok(text.as_str()),
        Some(_) => Err(bad_member(alloc, "Map")),
        None => Err(bad_member(alloc, "Maps")),
    }
}

// The text of the reduce, if there is one.
#[tactic(auto, using(crate::proofs::Readings::members))]
fn reduce_member(alloc: Global, reduce: Option<&Value>) -> Result<Option<&str>, ReadRefusal>
    ensures { Reads (λ text. option_map (λ t. t.now) text) result (spec_reduce_member (option_map (λ v. data_of v.now) reduce.entry)) }
{
    match reduce {
        None | Some(Value::Null) => Ok(None),
        Some(Value::Text(text)) => Ok(Some(text.as_str())),
        Some(_) => Err(bad_member(alloc, "Reduce")),
    }
}

#[tactic(auto, using(crate::proofs::Readings::readings))]
fn texts_in(alloc: Global, members: &Members) -> Result<(Name, Texts<'_>), ReadRefusal>
    ensures { Reads (λ asked. (asked.0, texts_behind asked.1)) result (spec_texts_in (entries_of members.now)) }
{
    let name = name_member(alloc, members.get("Name"))?;
    let map = map_member(alloc, members.get("Maps"), members.get("Map"))?;
    let reduce = reduce_member(alloc, members.get("Reduce"))?;
    Ok((name, (map, reduce)))
}

#[tactic(auto, using(crate::proofs::Readings::members))]
fn texts_of_body(alloc: Global, value: &Value) -> Result<(Name, Texts<'_>), ReadRefusal>
    ensures { Reads (λ asked. (asked.0, texts_behind asked.1)) result (spec_texts_of_body (data_of value.now)) }
{
    match value {
        Value::Map(members) => texts_in(alloc, members),
        _ => Err(bad_member(alloc, "body")),
    }
}

/// The definition that the texts say, under this name.
#[tactic(auto, using(crate::proofs::Requesting::requesting))]
pub fn define_by(alloc: Global, name: Name, texts: Texts<'_>) -> Result<TextDefinition, ReadRefusal>
    ensures { AsksBy define_view (Defining name (texts_behind texts.entry)) result }
{
    let (map, reduce) = texts;
    match parse_texts(alloc, name, map, reduce) {
        Ok(definition) => Ok(definition),
        Err(LangRefusal::At { part, at, kind }) => {
            Err(ReadRefusal::BadDefinition { part, at, kind })
        }
        Err(LangRefusal::NoMemory) => Err(ReadRefusal::NoMemory),
    }
}

/// The definition that this object says. Its members are read first, and then its texts by the grammar.
#[tactic(auto, using(crate::proofs::Requesting::requesting))]
pub fn definition_of(alloc: Global, value: &Value) -> Result<TextDefinition, ReadRefusal>
    ensures { AsksBy define_view (asked_to_define (spec_texts_of_body (data_of value.now))) result }
{
    let (name, texts) = texts_of_body(alloc, value)?;
    define_by(alloc, name, texts)
}

/// The request to define the index of this JSON.
#[tactic(auto, using(crate::proofs::Requesting::requesting))]
pub fn define_of(alloc: Global, json: &[u8]) -> Result<Request, ReadRefusal>
    ensures { Asks (asked_to_define (index_of json.now)) result }
{
    let value = json_of(alloc, json)?;
    let definition = definition_of(alloc, &value)?;
    Ok(Request::Define { definition })
}
