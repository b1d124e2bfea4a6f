//! Which stored rows are valid.
ghost use Rattle.std.specs.Prelude.{◌≡◌, ◌≤◌, ◌&&◌, IfErr, IfOk, None, Some, if◌then◌else◌, length, map, nat_lt, option_map};
ghost use Rattle.std.specs.List.{list_any};
ghost use Rattle.std.specs.Str.{bytes_eq};
ghost use Rattle.spec_data.specs.Faults.{is_fit, max_id};
ghost use Rattle.spec_data.specs.Data.{depth};
ghost use Rattle.spec_data.specs.Limits.{max_depth};
ghost use Rattle.spec_data.specs.Moments.{moments_end};
ghost use Rattle.spec_data.specs.Written.{text_of};
ghost use Rattle.raven_value.specs.RowView.{body_of};
ghost use Rattle.raven_value.specs.View.{data_of, pair_of};
ghost use Rattle.spec_store.specs.Commit.{is_server_member as spec_is_own};
ghost use Rattle.spec_store.specs.Kept.{body_in as spec_body_in, document_in as spec_document_in, is_clean as spec_is_clean, is_etag, is_stored as spec_is_stored, row_in as spec_row_in};
ghost use Rattle.doc_keeper.specs.Form.{IsRowFault};

use doc_store::OpenFault;
use doc_txn::is_own;
use raven_base::NoMemory;
use raven_json::{JsonRefusal, document_in as written_document, read};
use raven_ports::KeptRow;
use raven_value::{
    Body, Document, END_OF_MOMENTS, Id, IdRefusal, MAX_BODY, MAX_ETAG, Row, Text, Value,
};
use std::alloc::Global;

// Whether the server writes one of these members itself.
fn has_own(members: &[(Text, Value)]) -> bool
    ensures { result ≡ list_any (λ m. spec_is_own m.0) (map pair_of members.now) }
{
    for member in members {
        if is_own(member.0.as_str()) {
            return true;
        }
    }
    false
}

// Metadata without the members that the server writes itself.
#[tactic(auto, using(crate::proofs::FormLemmas::pairs))]
fn is_clean(metadata: Option<&Value>) -> bool
    ensures { result ≡ spec_is_clean (option_map (λ v. data_of v.now) metadata.entry) }
{
    match metadata {
        Some(Value::Map(members)) => !has_own(members.as_slice()),
        _ => false,
    }
}

// An object with clean metadata.
fn is_stored(value: &Value) -> bool
    ensures { result ≡ spec_is_stored (data_of value.now) }
{
    match value {
        Value::Map(members) => is_clean(members.get("@metadata")),
        _ => false,
    }
}

// The document, if the value is one and this is the text that is written for it.
fn checked(alloc: Global, value: &Value, text: &Text) -> Result<Option<Document>, NoMemory>
    requires { depth (data_of value.now) ≤ max_depth }
    ensures { IfOk result (λ found. found ≡ (if spec_is_stored (data_of value.now) && bytes_eq (text_of (data_of value.now)) text.now then Some (data_of value.now) else None)) }
{
    if is_stored(value) {
        written_document(alloc, value, text)
    } else {
        Ok(None)
    }
}

fn document_in(alloc: Global, text: &Text) -> Result<Option<Document>, NoMemory>
    ensures { IfOk result (λ found. found ≡ spec_document_in text.now) }
{
    if text.as_str().len() > MAX_BODY {
        return Ok(None);
    }
    match read(alloc, text.as_str().as_bytes()) {
        Ok(value) => checked(alloc, &value, text),
        Err(JsonRefusal::NoMemory) => Err(NoMemory),
        Err(_) => Ok(None),
    }
}

fn body_in(alloc: Global, body: &Option<Text>) -> Result<Option<Body>, NoMemory>
    ensures { IfOk result (λ found. option_map body_of found ≡ spec_body_in body.now) }
{
    let Some(text) = body else {
        return Ok(Some(Body::Gone));
    };
    match document_in(alloc, text)? {
        Some(document) => Ok(Some(Body::Doc(document))),
        None => Ok(None),
    }
}

fn id_in(text: &Text) -> Result<Option<Id>, NoMemory>
    ensures { IfOk result (λ found. found ≡ (if is_fit max_id text.now then Some text.now else None)) }
{
    match Id::of(text) {
        Ok(id) => Ok(Some(id)),
        Err(IdRefusal::NoMemory) => Err(NoMemory),
        Err(_) => Ok(None),
    }
}

// Whether the etag, the collection and the moment are valid.
fn is_in_bounds(kept: &KeptRow) -> bool
    ensures { result ≡ is_etag kept.now.etag && nat_lt 0 (length kept.now.collection) && nat_lt kept.now.changed moments_end }
{
    0 < kept.etag
        && kept.etag <= MAX_ETAG
        && 0 < kept.collection.as_str().len()
        && kept.changed < END_OF_MOMENTS
}

fn row_in(alloc: Global, kept: &KeptRow) -> Result<Option<Row>, NoMemory>
    ensures { IfOk result (λ row. row ≡ spec_row_in kept.now) }
{
    if !is_in_bounds(kept) {
        return Ok(None);
    }
    let Some(id) = id_in(&kept.id)? else {
        return Ok(None);
    };
    let Some(body) = body_in(alloc, &kept.body)? else {
        return Ok(None);
    };
    Ok(Some(Row {
        etag: kept.etag,
        id,
        collection: kept.collection.clone()?,
        body,
        changed: kept.changed,
    }))
}

/// The row of a stored row.
///
/// A stored row is bad if its etag is not from 1 to 9,007,199,254,740,991; if its id is invalid; if its collection is empty;
/// if its body has more than 1,048,576 bytes, or is not the text that is written for an object whose `@metadata` is an object
/// without the members that the server writes itself; or if it was changed in the year 9999 or later.
pub fn row_of(alloc: Global, kept: &KeptRow) -> Result<Row, OpenFault>
    ensures ok { IfOk result (λ row. spec_row_in kept.now ≡ Some row) }
    ensures fault { IfErr result (λ fault. IsRowFault fault kept.now (spec_row_in kept.now)) }
{
    match row_in(alloc, kept)? {
        Some(row) => Ok(row),
        None => Err(OpenFault::KeptBad { etag: kept.etag }),
    }
}
