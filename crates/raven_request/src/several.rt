//! The definition of an index of several maps, in JSON.
ghost use Rattle.std.specs.Prelude.{◌≡◌, ◌&&◌, ◌<◌, IfOk, None, Ok, Some, length, map, nat_le, option_map, string_bytes};
ghost use Rattle.raven_value.specs.View.{data_of};
ghost use Rattle.raven_request.specs.RequestRead.{Asks, AsksBy};
ghost use Rattle.raven_request.specs.RequestView.{Reads, define_view, multi_view};
ghost use Rattle.raven_request.specs.Several.{AreFit, several_view};
ghost use Rattle.spec_data.specs.Data.{array, entries_of, items_of};
ghost use Rattle.spec_data.specs.Faults.{fault_of, max_name};
ghost use Rattle.spec_server.specs.Several.{part_name as spec_part_name};
ghost use Rattle.spec_server.specs.Texts.{Defining, DefiningSeveral, asked_to_define_several, map_text as spec_map_text, map_texts as spec_map_texts, several_in as spec_several_in, several_maps as spec_several_maps, several_name as spec_several_name, several_of as spec_several_of, several_of_body as spec_several_of_body, several_reduce as spec_several_reduce};
ghost use Rattle.spec_server.specs.Words.{name_read, then_read};

use crate::body::{bad_member, json_of, name_of};
use crate::definition::define_by;
use crate::request::{ReadRefusal, Request};
use index_lang::TextDefinition;
use raven_base::NoMemory;
use raven_value::{Members, Name, Value};
use std::alloc::Global;

/// An index of several maps has at least so many.
const MIN_MAPS: usize = 2;

/// And at most so many.
const MAX_MAPS: usize = 8;

/// The name of an index of several maps, the texts of its maps, and that of its reduce.
#[derive(Drop)]
struct SeveralTexts<'a> {
    name: &'a str,
    maps: Vec<&'a str>,
    reduce: &'a str,
}

fn part_name(alloc: Global, name: &str, number: u64) -> Result<String, NoMemory>
    ensures { IfOk result (λ text. string_bytes text ≡ spec_part_name name.now number) }
{
    let mut text = String::from_str(alloc, name)?;
    text.push_str("/")?;
    text.push_str(number.to_string(alloc)?.as_str())?;
    Ok(text)
}

// The name of the part of this number.
fn part_named(alloc: Global, name: &str, number: u64) -> Result<Name, ReadRefusal>
    ensures { Reads (λ name. name) result (name_read (spec_part_name name.now number)) }
{
    let text = part_name(alloc, name, number)?;
    name_of(alloc, text.as_str())
}

// The name, which is refused as that of its first part.
#[tactic(auto, using(crate::proofs::Readings::readings))]
fn name_with_parts<'a>(alloc: Global, name: &'a str) -> Result<&'a str, ReadRefusal>
    ensures { Reads (λ name. name.now) result (then_read (name_read (spec_part_name name.now 1)) (λ part. Ok name.now)) }
{
    let _first = part_named(alloc, name, 1)?;
    Ok(name)
}

#[tactic(auto, using(crate::proofs::Readings::members))]
fn several_name(alloc: Global, value: Option<&Value>) -> Result<&str, ReadRefusal>
    ensures { Reads (λ name. name.now) result (spec_several_name (option_map (λ v. data_of v.now) value.entry)) }
{
    match value {
        Some(Value::Text(name)) => name_with_parts(alloc, name.as_str()),
        _ => Err(bad_member(alloc, "Name")),
    }
}

#[tactic(auto, using(crate::proofs::Readings::members))]
fn map_text(alloc: Global, value: &Value) -> Result<&str, ReadRefusal>
    ensures { Reads (λ map. map.now) result (spec_map_text (data_of value.now)) }
{
    match value {
        Value::Text(map) => Ok(map.as_str()),
        _ => Err(bad_member(alloc, "Maps")),
    }
}

#[tactic(auto, using(crate::proofs::SeveralMaps::map_lists))]
fn map_texts<'a>(alloc: Global, values: &'a [Value]) -> Result<Vec<&'a str>, ReadRefusal>
    ensures { Reads (λ maps. map (λ m. m.now) maps.items) result (spec_map_texts (map data_of values.now)) }
{
    let mut maps = Vec::new(alloc);
    for value in values {
        let map = map_text(alloc, value)?;
        if maps.push(map).is_err() {
            return Err(ReadRefusal::NoMemory);
        }
    }
    Ok(maps)
}

fn are_so_many(values: &[Value]) -> bool
    ensures { result ≡ (nat_le 2 (length values.now) && nat_le (length values.now) 8) }
{
    values.len() >= MIN_MAPS && values.len() <= MAX_MAPS
}

// The texts of a list of two to eight.
fn listed_maps<'a>(alloc: Global, values: &'a [Value]) -> Result<Vec<&'a str>, ReadRefusal>
    ensures { Reads (λ maps. map (λ m. m.now) maps.items) result (spec_several_maps (Some (array (items_of (map data_of values.now))))) }
{
    if !are_so_many(values) {
        return Err(bad_member(alloc, "Maps"));
    }
    map_texts(alloc, values)
}

#[tactic(auto, using(crate::proofs::Readings::members))]
fn several_maps<'a>(alloc: Global, value: Option<&'a Value>) -> Result<Vec<&'a str>, ReadRefusal>
    ensures { Reads (λ maps. map (λ m. m.now) maps.items) result (spec_several_maps (option_map (λ v. data_of v.now) value.entry)) }
{
    match value {
        Some(Value::List(values)) => listed_maps(alloc, values.as_slice()),
        _ => Err(bad_member(alloc, "Maps")),
    }
}

#[tactic(auto, using(crate::proofs::Readings::members))]
fn several_reduce(alloc: Global, value: Option<&Value>) -> Result<&str, ReadRefusal>
    ensures { Reads (λ reduce. reduce.now) result (spec_several_reduce (option_map (λ v. data_of v.now) value.entry)) }
{
    match value {
        Some(Value::Text(reduce)) => Ok(reduce.as_str()),
        _ => Err(bad_member(alloc, "Reduce")),
    }
}

#[tactic(auto, using(crate::proofs::Readings::readings))]
fn several_in(alloc: Global, members: &Members) -> Result<SeveralTexts<'_>, ReadRefusal>
    ensures { Reads several_view result (spec_several_in (entries_of members.now)) }
{
    let name = several_name(alloc, members.get("Name"))?;
    let maps = several_maps(alloc, members.get("Maps"))?;
    let reduce = several_reduce(alloc, members.get("Reduce"))?;
    Ok(SeveralTexts { name, maps, reduce })
}

#[tactic(auto, using(crate::proofs::Readings::members))]
fn several_of_body(alloc: Global, value: &Value) -> Result<SeveralTexts<'_>, ReadRefusal>
    ensures { Reads several_view result (spec_several_of_body (data_of value.now)) }
{
    match value {
        Value::Map(members) => several_in(alloc, members),
        _ => Err(bad_member(alloc, "body")),
    }
}

// The part of this number, by its map and the reduce. Its name is valid, as that of the first part is.
#[tactic(auto, using(crate::proofs::SeveralMaps::naming))]
fn part_by(
    alloc: Global,
    texts: &SeveralTexts<'_>,
    number: u64,
    map: &str,
) -> Result<TextDefinition, ReadRefusal>
    requires { (fault_of max_name (spec_part_name texts.now.name.now 1) ≡ None) × (number < 10) }
    ensures { AsksBy define_view (Defining (spec_part_name texts.now.name.now number) (map.now, Some texts.now.reduce.now)) result }
{
    let name = part_named(alloc, texts.name, number)?;
    define_by(alloc, name, (map, Some(texts.reduce)))
}

// The parts that the texts say, up to the first that is refused.
#[tactic(auto, using(crate::proofs::SeveralMaps::parting))]
fn parts_by(alloc: Global, texts: &SeveralTexts<'_>) -> Result<Vec<TextDefinition>, ReadRefusal>
    requires { AreFit (several_view texts.now) }
    ensures { AsksBy (λ parts. multi_view parts.items) (DefiningSeveral (several_view texts.now)) result }
{
    let mut parts = Vec::new(alloc);
    for map in texts.maps.as_slice() {
        let number = parts.len() as u64 + 1;
        let part = part_by(alloc, texts, number, map)?;
        if parts.push(part).is_err() {
            return Err(ReadRefusal::NoMemory);
        }
    }
    Ok(parts)
}

/// The parts of the index of several maps that this object says. Its members are read first, and then the texts of each part by the grammar, up
/// to the first that is refused.
#[tactic(auto, using(crate::proofs::SeveralMaps::asking))]
pub fn parts_of(alloc: Global, value: &Value) -> Result<Vec<TextDefinition>, ReadRefusal>
    ensures { AsksBy (λ parts. multi_view parts.items) (asked_to_define_several (spec_several_of_body (data_of value.now))) result }
{
    let texts = several_of_body(alloc, value)?;
    parts_by(alloc, &texts)
}

/// The request to define the parts of the index of several maps of this JSON.
#[tactic(auto, using(crate::proofs::SeveralMaps::asking))]
pub fn multi_of(alloc: Global, json: &[u8]) -> Result<Request, ReadRefusal>
    ensures { Asks (asked_to_define_several (spec_several_of json.now)) result }
{
    let value = json_of(alloc, json)?;
    let parts = parts_of(alloc, &value)?;
    Ok(Request::Multi { parts })
}
