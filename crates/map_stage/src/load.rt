//! Documents that a map loads.
ghost use Rattle.std.specs.Prelude.{◌≡◌, IfOk, Some, option_map};
ghost use Rattle.index_tree.specs.Evaluate.{document_in, document_of, loaded};
ghost use Rattle.raven_value.specs.RowView.{body_of};
ghost use Rattle.raven_value.specs.View.{data_of};
ghost use Rattle.map_stage.specs.HeldView.{held_of};
ghost use Rattle.map_stage.specs.Reached.{Does};

use crate::held::Held;
use crate::lookup::Lookup;
use raven_base::NoMemory;
use raven_json::value_of;
use raven_value::{Body, Id, IdRefusal, Ids, Row, Text, Value};
use std::alloc::Global;

fn document_in<'a>(
    alloc: Global,
    collection: &Text,
    row: Option<&Row>,
) -> Result<Held<'a>, NoMemory>
    ensures { IfOk result (λ held. held_of held ≡ document_in collection.now (option_map (λ r. r.now) row.entry)) }
{
    match row {
        Some(row) if row.collection == *collection => {
            Held::of_value(alloc, document_of(alloc, &row.body)?)
        }
        _ => Ok(Held::Null),
    }
}

/// The document of the id, if the value is a text that can be one and the document is in the collection.
pub fn load<'a, T: Lookup>(
    alloc: Global,
    rows: &'a T,
    collection: &Text,
    value: &Held<'a>,
    asked: &mut Ids,
) -> Result<Held<'a>, NoMemory>
    ensures { IfOk result (λ held. Does (loaded (T.rows rows.now) collection.now (held_of value.now)) asked.old asked.new (Some held)) }
{
    let Held::Text(text) = value else {
        return Ok(Held::Null);
    };
    match Id::of(text.as_ref()) {
        Ok(id) => {
            let document = document_in(alloc, collection, rows.find(&id))?;
            asked.push(id)?;
            Ok(document)
        }
        Err(IdRefusal::NoMemory) => Err(NoMemory),
        Err(_) => Ok(Held::Null),
    }
}

/// The value of the document of a row, whose text is read, and null for a tombstone.
pub fn document_of(alloc: Global, body: &Body) -> Result<Value, NoMemory>
    ensures { IfOk result (λ value. data_of value ≡ document_of (body_of body.now)) }
{
    match body {
        Body::Doc(document) => value_of(alloc, document),
        Body::Gone => Ok(Value::Null),
    }
}
