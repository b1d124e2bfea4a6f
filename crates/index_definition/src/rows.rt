//! What is kept of a definition.
ghost use Rattle.std.specs.Prelude.{◌≡◌, ◌∷◌, [], IfOk, OnOk, codes};
ghost use Rattle.spec_data.specs.Data.{array, entry, items_of, no_entries, object, text as spec_text};
ghost use Rattle.spec_data.specs.Rising.{put};
ghost use Rattle.raven_value.specs.View.{data_of};
ghost use Rattle.spec_index.specs.Mapping as is;
ghost use Rattle.spec_index.specs.Optimiser.{definition_of};
ghost use Rattle.spec_index.specs.World as world;
ghost use Rattle.index_definition.specs.DefinitionView.{definition_view};
ghost use Rattle.index_definition.specs.Rows.{put_members};
ghost use Rattle.index_definition.specs.ShapeView.{shape_view};

use crate::definition::{DefBody, Definition};
use crate::shape::Shape;
use raven_base::NoMemory;
use raven_value::{Members, Path, Text, Value, Values};
use std::alloc::Global;

fn put_text(alloc: Global, members: &mut Members, name: &str, text: Text) -> Result<(), NoMemory>
    ensures { OnOk result (members.new ≡ put name.now (spec_text text) members.old) }
{
    members.put_at(alloc, name, Value::Text(text))
}

fn texts_value(alloc: Global, texts: &[Text]) -> Result<Value, NoMemory>
    ensures { IfOk result (λ value. data_of value ≡ world.text_list texts.now) }
{
    let mut values = Values::new(alloc);
    for text in texts {
        values.push(Value::Text(text.clone()?))?;
    }
    Ok(Value::List(values))
}

fn paths_value(alloc: Global, paths: &[Path]) -> Result<Value, NoMemory>
    ensures { IfOk result (λ value. data_of value ≡ world.path_list paths.now) }
{
    let mut values = Values::new(alloc);
    for path in paths {
        values.push(texts_value(alloc, path.as_slice())?)?;
    }
    Ok(Value::List(values))
}

fn text_or_null(text: &Option<Text>) -> Result<Value, NoMemory>
    ensures { IfOk result (λ value. data_of value ≡ world.text_or_null text.now) }
{
    match text {
        Some(text) => Ok(Value::Text(text.clone()?)),
        None => Ok(Value::Null),
    }
}

fn metadata_value(alloc: Global) -> Result<Value, NoMemory>
    ensures { IfOk result (λ value. data_of value ≡ object (entry (codes "@collection") (spec_text (codes "@indexes")) no_entries)) }
{
    let mut metadata = Members::new(alloc);
    put_text(
        alloc,
        &mut metadata,
        "@collection",
        Text::of(alloc, "@indexes")?,
    )?;
    Ok(Value::Map(metadata))
}

fn put_static(
    alloc: Global,
    members: &mut Members,
    map: &Text,
    reduce: &Option<Text>,
) -> Result<(), NoMemory>
    ensures { OnOk result (members.new ≡ put (codes "Reduce") (world.text_or_null reduce.now) (put (codes "Map") (spec_text map.now) (put (codes "Kind") (spec_text (codes "static")) members.old))) }
{
    put_text(alloc, members, "Kind", Text::of(alloc, "static")?)?;
    put_text(alloc, members, "Map", map.clone()?)?;
    members.put_at(alloc, "Reduce", text_or_null(reduce)?)
}

fn put_auto(
    alloc: Global,
    members: &mut Members,
    collection: &Text,
    fields: &[Path],
) -> Result<(), NoMemory>
    ensures { OnOk result (members.new ≡ put (codes "Kind") (spec_text (codes "auto")) (put (codes "Fields") (world.path_list fields.now) (put (codes "Collection") (spec_text collection.now) members.old))) }
{
    put_text(alloc, members, "Collection", collection.clone()?)?;
    members.put_at(alloc, "Fields", paths_value(alloc, fields)?)?;
    put_text(alloc, members, "Kind", Text::of(alloc, "auto")?)
}

fn put_grouped(
    alloc: Global,
    members: &mut Members,
    collection: &Text,
    groups: &[Path],
    sums: &[Path],
) -> Result<(), NoMemory>
    ensures { OnOk result (members.new ≡ put (codes "Sums") (world.path_list sums.now) (put (codes "Kind") (spec_text (codes "auto-reduce")) (put (codes "Groups") (world.path_list groups.now) (put (codes "Collection") (spec_text collection.now) members.old)))) }
{
    put_text(alloc, members, "Collection", collection.clone()?)?;
    members.put_at(alloc, "Groups", paths_value(alloc, groups)?)?;
    put_text(alloc, members, "Kind", Text::of(alloc, "auto-reduce")?)?;
    members.put_at(alloc, "Sums", paths_value(alloc, sums)?)
}

fn put_shape(alloc: Global, members: &mut Members, shape: &Shape) -> Result<(), NoMemory>
    ensures { OnOk result (members.new ≡ put_members (world.definition_members (definition_of (shape_view shape.now))) members.old) }
{
    let fields = shape.fields.as_slice();
    match &shape.groups {
        None => put_auto(alloc, members, &shape.collection, fields),
        Some(groups) => put_grouped(alloc, members, &shape.collection, groups.as_slice(), fields),
    }
}

fn put_body(alloc: Global, members: &mut Members, body: &DefBody) -> Result<(), NoMemory>
    ensures { OnOk result (members.new ≡ put_members (world.definition_members (definition_view body.now)) members.old) }
{
    match body {
        DefBody::Static {
            map_text,
            reduce_text,
            ..
        } => put_static(alloc, members, map_text, reduce_text),
        DefBody::Auto(shape) => put_shape(alloc, members, shape),
    }
}

/// The body by which a definition is put into the collection `@indexes`.
pub fn row_body(alloc: Global, definition: &Definition) -> Result<Value, NoMemory>
    ensures { IfOk result (λ value. data_of value ≡ world.row_body (definition_view definition.now.body)) }
{
    let mut members = Members::new(alloc);
    members.put_at(alloc, "@metadata", metadata_value(alloc)?)?;
    put_body(alloc, &mut members, &definition.body)?;
    members.put_at(alloc, "Version", Value::Num(2))?;
    Ok(Value::Map(members))
}
