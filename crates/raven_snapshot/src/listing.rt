//! What is reported of the indexes.
ghost use Rattle.std.specs.Prelude.{◌≡◌, IfOk, map, option_copied};
ghost use Rattle.raven_value.specs.View.{data_of};
ghost use Rattle.spec_server.specs.Answers.{body_shown as spec_body_shown, definition_shown as spec_definition_shown, listing as spec_listing, without_metadata as spec_without_metadata};

use doc_store::Store;
use query_replies::is_stale;
use raven_base::NoMemory;
use raven_json::value_of;
use raven_reply::Listing;
use raven_value::{Body, Row, Text, Value};
use side_by_side::{Slot, index_id};
use std::alloc::Global;

#[tactic(auto, using(query_replies::proofs::Pairs::pairs))]
fn without_metadata(alloc: Global, body: Value) -> Result<Value, NoMemory>
    ensures { IfOk result (λ shown. data_of shown ≡ spec_without_metadata (data_of body)) }
{
    let Value::Map(members) = body else {
        return Ok(body);
    };
    let mut members = members;
    members.remove(&Text::of(alloc, "@metadata")?);
    Ok(Value::Map(members))
}

fn body_shown(alloc: Global, row: Option<&Row>) -> Result<Value, NoMemory>
    ensures { IfOk result (λ shown. data_of shown ≡ spec_body_shown (option_copied row.entry)) }
{
    if let Some(row) = row {
        if let Body::Doc(document) = &row.body {
            return without_metadata(alloc, value_of(alloc, document)?);
        }
    }
    Ok(Value::Null)
}

// The definition of an index as its row has it, which may say it in the first version.
fn definition_shown(alloc: Global, store: &Store, slot: &Slot) -> Result<Value, NoMemory>
    ensures { IfOk result (λ shown. data_of shown ≡ spec_definition_shown store.now slot.now) }
{
    let id = index_id(alloc, &slot.name)?;
    body_shown(alloc, store.get(&id))
}

fn listing(alloc: Global, store: &Store, slot: &Slot) -> Result<Listing, NoMemory>
    ensures { IfOk result (λ listing. listing ≡ spec_listing store.now slot.now) }
{
    let version = &slot.version;
    Ok(Listing {
        definition: definition_shown(alloc, store, slot)?,
        entries: version.entries(),
        errors: version.errors(),
        etag: version.etag(),
        is_stale: is_stale(store, version, None),
        name: slot.name.clone()?,
    })
}

/// What is reported of each of these indexes.
pub fn listings(alloc: Global, store: &Store, slots: &[Slot]) -> Result<Vec<Listing>, NoMemory>
    ensures { IfOk result (λ listings. listings.items ≡ map (spec_listing store.now) slots.now) }
{
    let mut listings = Vec::with_capacity(alloc, slots.len())?;
    for slot in slots {
        listings.push(listing(alloc, store, slot)?)?;
    }
    Ok(listings)
}
