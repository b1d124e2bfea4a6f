//! The paths in the stored body of a definition.
ghost use Rattle.std.specs.Prelude.{◌≡◌, ◌==◌, ◌||◌, IfOk, map, option_map};
ghost use Rattle.std.specs.List.{list_any};
ghost use Rattle.spec_data.specs.Data.{array, item, items_of};
ghost use Rattle.raven_value.specs.View.{data_of};
ghost use Rattle.spec_server.specs.Opening.{are_rising as spec_are_rising, is_part as spec_is_part, path_of, paths_of, paths_read};
ghost use Rattle.index_lang.specs.Bodies.{part_in as spec_part_in};

use index_definition::joined_name;
use raven_base::NoMemory;
use raven_value::{Path, Paths, Text, Value};
use std::alloc::Global;

// Whether the byte cannot be in a part of a path.
fn is_break(byte: u8) -> bool
    ensures { result ≡ ((byte == 46) || (byte == 40) || (byte == 41)) }
{
    byte == b'.' || byte == b'(' || byte == b')'
}

fn has_break(text: &str) -> bool
    ensures { result ≡ list_any (λ b. (b == 46) || (b == 40) || (b == 41)) text.now }
{
    text.as_bytes().iter().any(|byte| is_break(*byte))
}

fn is_part(text: &str) -> bool
    ensures { result ≡ spec_is_part text.now }
{
    !text.is_empty() && !has_break(text)
}

// The text, if it is a part of a path.
fn part_in(value: &Value) -> Option<&Text>
    ensures { option_map (λ t. t.now) result ≡ spec_part_in (data_of value.now) }
{
    match value {
        Value::Text(text) if is_part(text.as_str()) => Some(text),
        _ => None,
    }
}

// The path of these values, if each is a part of one.
#[tactic(auto, using(crate::proofs::ReadPaths::paths))]
fn path_by(alloc: Global, first: &Value, more: &[Value]) -> Result<Option<Path>, NoMemory>
    ensures { IfOk result (λ path. path ≡ path_of (array (item (data_of first.now) (items_of (map data_of more.now))))) }
{
    let Some(part) = part_in(first) else {
        return Ok(None);
    };
    let mut path = Path::of(alloc, part.clone()?)?;
    for value in more {
        let Some(part) = part_in(value) else {
            return Ok(None);
        };
        path.push(part.clone()?)?;
    }
    Ok(Some(path))
}

// The path, if the value is one.
#[tactic(auto, using(crate::proofs::ReadPaths::paths))]
fn path_in(alloc: Global, value: &Value) -> Result<Option<Path>, NoMemory>
    ensures { IfOk result (λ path. path ≡ path_of (data_of value.now)) }
{
    let Value::List(items) = value else {
        return Ok(None);
    };
    match items.as_slice() {
        [first, more @ ..] => path_by(alloc, first, more),
        [] => Ok(None),
    }
}

// These values as paths, if each is one.
#[tactic(auto, using(crate::proofs::ReadPaths::paths))]
fn each_path(alloc: Global, values: &[Value]) -> Result<Option<Paths>, NoMemory>
    ensures { IfOk result (λ paths. paths ≡ paths_of (items_of (map data_of values.now))) }
{
    let mut paths = Paths::new(alloc);
    for value in values {
        let Some(path) = path_in(alloc, value)? else {
            return Ok(None);
        };
        paths.push(path)?;
    }
    Ok(Some(paths))
}

// Whether the joined form of each is below that of the next.
#[tactic(auto, using(crate::proofs::ReadPaths::paths))]
fn are_rising(alloc: Global, paths: &[Path]) -> Result<bool, NoMemory>
    ensures { IfOk result (λ are. are ≡ spec_are_rising paths.now) }
{
    let [first, more @ ..] = paths else {
        return Ok(true);
    };
    let mut last = joined_name(alloc, first)?;
    for path in more {
        let name = joined_name(alloc, path)?;
        if !last.cmp(&name).is_lt() {
            return Ok(false);
        }
        last = name;
    }
    Ok(true)
}

/// The paths, if the value is a list of them in the order of their joined forms.
#[tactic(auto, using(crate::proofs::ReadPaths::paths))]
pub fn paths_in(alloc: Global, value: Option<&Value>) -> Result<Option<Paths>, NoMemory>
    ensures { IfOk result (λ paths. paths ≡ paths_read (option_map (λ v. data_of v.now) value.entry)) }
{
    let Some(Value::List(items)) = value else {
        return Ok(None);
    };
    let Some(paths) = each_path(alloc, items.as_slice())? else {
        return Ok(None);
    };
    if !are_rising(alloc, paths.as_slice())? {
        return Ok(None);
    }
    Ok(Some(paths))
}
