//! The map of a definition.
ghost use Rattle.std.specs.Prelude.{◌≡◌, IfOk, [], option_map};
ghost use Rattle.map_stage.specs.MappedView.{mapped_view};
ghost use Rattle.map_stage.specs.Words.{HasWords, IsWord, OutcomeHasWords};
ghost use Rattle.raven_value.specs.RowView.{body_of};
ghost use Rattle.raven_value.specs.ScalarView.{scalar_view};
ghost use Rattle.raven_value.specs.View.{data_of};
ghost use Rattle.index_tree.specs.Mapper.{field_of, fields_at, mapper_of};
ghost use Rattle.index_definition.specs.DefinitionView.{definition_view};
ghost use Rattle.index_version.specs.Meaning.{body_with, found_local, found_meaning, grouped_fields, shape_fields, shape_meaning};

use index_definition::{COUNT_NAME, DefBody, Definition, Shape, joined_name, sum_name};
use map_stage::{Entry, LangMapper, Lookup, Mapped, Mapper, Outcome, Ticket, scalar_of};
use raven_base::NoMemory;
use raven_json::value_of;
use raven_value::{Body, Ids, Path, Row, Scalar, Text, Value};
use std::alloc::Global;

/// The map that a definition means. That of an automatic index gives an entry for each document, and looks nothing up.
#[derive(Clone, Copy)]
pub struct DefinitionMapper<'d> {
    pub definition: &'d Definition,
}

impl<'d> Mapper for DefinitionMapper<'d> {
    ghost meaning = { λ m d find. found_meaning (definition_view m.definition.now.body) d find };

    fn map<T: Lookup>(
        &self,
        alloc: Global,
        doc: &Row,
        rows: &T,
        ticket: Ticket,
    ) -> Result<Mapped, NoMemory> {
        match &self.definition.body {
            DefBody::Static { map, .. } => {
                let mapper = LangMapper { query: map };
                mapper.map(alloc, doc, rows, ticket)
            }
            DefBody::Auto(shape) => shape_mapped(alloc, shape, doc),
        }
    }

    ghost local = { λ m d find other alike. found_local (definition_view m.definition.now.body) d find other alike };
}

/// The collection whose documents are mapped.
pub fn mapped_collection(definition: &Definition) -> &Text
    ensures { result.now ≡ (mapper_of (definition_view definition.now.body)).collection }
{
    match &definition.body {
        DefBody::Static { map, .. } => &map.collection,
        DefBody::Auto(shape) => &shape.collection,
    }
}

fn shape_mapped(alloc: Global, shape: &Shape, row: &Row) -> Result<Mapped, NoMemory>
    ensures mapped { IfOk result (λ mapped. mapped_view mapped ≡ shape_meaning shape.now.groups shape.now.fields row.now) }
    ensures words { IfOk result (λ mapped. OutcomeHasWords (mapped_view mapped).outcome) }
{
    let entry = shape_entry(alloc, shape, &row.body)?;
    Ok(Mapped {
        outcome: Outcome::Entry(entry),
        loads: Ids::new(alloc),
    })
}

// The value of a document, whose text is read, and nothing for a tombstone.
fn value_in(alloc: Global, body: &Body) -> Result<Option<Value>, NoMemory>
    ensures { IfOk result (λ found. body_with (option_map (λ v. data_of v) found) ≡ body_of body.now) }
{
    match body {
        Body::Doc(document) => Ok(Some(value_of(alloc, document)?)),
        Body::Gone => Ok(None),
    }
}

fn shape_entry(alloc: Global, shape: &Shape, body: &Body) -> Result<Entry, NoMemory>
    ensures fields { IfOk result (λ entry. entry ≡ shape_fields shape.now.groups shape.now.fields (body_of body.now)) }
    ensures words { IfOk result HasWords }
{
    let value = value_in(alloc, body)?;
    let paths = shape.fields.as_slice();
    match &shape.groups {
        None => auto_entry(alloc, paths.len(), paths, value.as_ref()),
        Some(groups) => grouped_entry(alloc, groups.as_slice(), paths, value.as_ref()),
    }
}

// The fields by which it is grouped, a one, and those that are summed.
fn grouped_entry(
    alloc: Global,
    groups: &[Path],
    sums: &[Path],
    value: Option<&Value>,
) -> Result<Entry, NoMemory>
    ensures fields { IfOk result (λ entry. entry ≡ grouped_fields groups.now sums.now (body_with (option_map (λ v. data_of v.now) value.entry))) }
    ensures words { IfOk result HasWords }
{
    let room = groups.len() + 1 + sums.len();
    let mut entry = auto_entry(alloc, room, groups, value)?;
    entry.put(Text::of(alloc, COUNT_NAME)?, Scalar::Num(1))?;
    for sum in sums {
        entry.put(sum_name(alloc, sum)?, field_at(value, sum)?)?;
    }
    Ok(entry)
}

// The fields at these paths, in an entry with room for so many fields.
fn auto_entry(
    alloc: Global,
    room: usize,
    paths: &[Path],
    value: Option<&Value>,
) -> Result<Entry, NoMemory>
    ensures fields { IfOk result (λ entry. entry ≡ fields_at (body_with (option_map (λ v. data_of v.now) value.entry)) [] paths.now) }
    ensures words { IfOk result HasWords }
{
    let mut entry = Entry::with_room(alloc, room)?;
    for path in paths {
        entry.put(joined_name(alloc, path)?, field_at(value, path)?)?;
    }
    Ok(entry)
}

fn field_at(value: Option<&Value>, path: &Path) -> Result<Scalar, NoMemory>
    ensures scalar { IfOk result (λ scalar. scalar_view scalar ≡ field_of (body_with (option_map (λ v. data_of v.now) value.entry)) path.now) }
    ensures word { IfOk result (λ scalar. IsWord (scalar_view scalar)) }
{
    let Some(value) = value else {
        return Ok(Scalar::Null);
    };
    match value.at(path) {
        Some(value) => scalar_of(value),
        None => Ok(Scalar::Null),
    }
}
