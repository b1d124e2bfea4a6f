//! Documents: from a value to the text that is kept, and back.
ghost use Rattle.std.specs.Prelude.{◌≡◌, ◌<◌, ◌≤◌, IfOk, codes, length, map, option_map, None, Some, if◌then◌else◌, true};
ghost use Rattle.std.specs.Str.{bytes_eq};
ghost use Rattle.raven_value.specs.DocumentView.{IsHead, IsWritten, data_in};
ghost use Rattle.raven_value.specs.View.{data_of, pair_of};
ghost use Rattle.spec_data.specs.Data.{depth, entries_of, object};
ghost use Rattle.spec_data.specs.Limits.{max_depth};
ghost use Rattle.spec_data.specs.Members.{member_of};
ghost use Rattle.spec_data.specs.Written.{text_of};

use crate::decode::{JsonRefusal, read};
use crate::encode::write;
use crate::measure::text_len;
use raven_base::NoMemory;
use raven_value::{Document, Text, Value};
use std::alloc::Global;

// How long the text of a value is, and 0 if that is not below 2^32.
fn short_len(value: &Value) -> u32
    ensures { 0 < result → result ≡ length (text_of (data_of value.now)) }
{
    match text_len(value) {
        Ok(len) => u32::try_from(len).unwrap_or(0),
        Err(NoMemory) => 0,
    }
}

// How long the text of the metadata is, if it is the first member and an object.
fn head_in(members: &[(Text, Value)]) -> u32
    ensures { IsHead result (object (entries_of (map pair_of members.now))) }
{
    let [first, ..] = members else {
        return 0;
    };
    if first.0.as_str() == "@metadata" && matches!(first.1, Value::Map(_)) {
        short_len(&first.1)
    } else {
        0
    }
}

fn head_of(value: &Value) -> u32
    ensures { IsHead result (data_of value.now) }
{
    match value {
        Value::Map(members) => head_in(members.as_slice()),
        _ => 0,
    }
}

// The text that is written for a value.
#[tactic(auto, using(crate::proofs::Documents::documents))]
fn text_in(alloc: Global, value: &Value) -> Result<Text, NoMemory>
    requires { depth (data_of value.now) ≤ max_depth }
    ensures written { IfOk result IsWritten }
    ensures value { IfOk result (λ text. data_in text ≡ data_of value.now) }
{
    let mut bytes = write(alloc, value)?;
    // A document is kept for long: its text gives back the room that its list grew to.
    bytes.shrink_to_fit();
    Text::of_string(unsafe { String::from_utf8_unchecked(bytes) })
}

/// The document of a value that is at most a hundred deep.
pub fn document_of(alloc: Global, value: &Value) -> Result<Document, NoMemory>
    requires { depth (data_of value.now) ≤ max_depth }
    ensures { IfOk result (λ document. document ≡ data_of value.now) }
{
    let text = text_in(alloc, value)?;
    Ok(Document::of_text(text, head_of(value)))
}

// Whether this is the text that is written for the value.
#[tactic(auto, using(crate::proofs::Documents::texts))]
fn is_text_of(alloc: Global, value: &Value, text: &Text) -> Result<bool, NoMemory>
    requires { depth (data_of value.now) ≤ max_depth }
    ensures same { IfOk result (λ is. is ≡ bytes_eq (text_of (data_of value.now)) text.now) }
    ensures written { IfOk result (λ is. is ≡ true → IsWritten text.now) }
    ensures value { IfOk result (λ is. is ≡ true → data_in text.now ≡ data_of value.now) }
{
    let written = write(alloc, value)?;
    Ok(written.as_slice() == text.as_str().as_bytes())
}

/// The document of this text, if it is the text that is written for the value. The text is shared.
pub fn document_in(alloc: Global, value: &Value, text: &Text) -> Result<Option<Document>, NoMemory>
    requires { depth (data_of value.now) ≤ max_depth }
    ensures { IfOk result (λ found. found ≡ (if bytes_eq (text_of (data_of value.now)) text.now then Some (data_of value.now) else None)) }
{
    if is_text_of(alloc, value, text)? {
        Ok(Some(Document::of_text(text.clone()?, head_of(value))))
    } else {
        Ok(None)
    }
}

/// The value of a document. Its text is read.
#[tactic(auto, using(crate::proofs::Documents::documents))]
pub fn value_of(alloc: Global, document: &Document) -> Result<Value, NoMemory>
    ensures { IfOk result (λ value. data_of value ≡ document.now) }
{
    match read(alloc, document.text().as_str().as_bytes()) {
        Ok(value) => Ok(value),
        Err(JsonRefusal::NoMemory) => Err(NoMemory),
        Err(JsonRefusal::NotJson | JsonRefusal::NumberNotWhole | JsonRefusal::TooDeep) =>
            unreachable!(),
    }
}

// The value of the text of the metadata.
#[tactic(auto, using(crate::proofs::Documents::documents))]
fn value_at(alloc: Global, head: &[u8]) -> Result<Value, NoMemory>
    requires { IsWritten head.now }
    ensures { IfOk result (λ value. data_of value ≡ data_in head.now) }
{
    match read(alloc, head) {
        Ok(value) => Ok(value),
        Err(JsonRefusal::NoMemory) => Err(NoMemory),
        Err(JsonRefusal::NotJson | JsonRefusal::NumberNotWhole | JsonRefusal::TooDeep) =>
            unreachable!(),
    }
}

// The member `@metadata` of a value.
fn metadata_in(alloc: Global, value: Value) -> Result<Option<Value>, NoMemory>
    ensures { IfOk result (λ found. option_map (λ v. data_of v) found ≡ member_of (codes "@metadata") (data_of value)) }
{
    let Value::Map(mut members) = value else {
        return Ok(None);
    };
    let name = Text::of(alloc, "@metadata")?;
    Ok(members.remove(&name))
}

/// The member `@metadata` of a document. Of the rest of the text nothing is read, if the metadata is the first member.
#[tactic(auto, using(crate::proofs::Documents::documents))]
pub fn metadata_of(alloc: Global, document: &Document) -> Result<Option<Value>, NoMemory>
    ensures { IfOk result (λ found. option_map (λ v. data_of v) found ≡ member_of (codes "@metadata") document.now) }
{
    match document.parts() {
        Some((head, _)) => Ok(Some(value_at(alloc, head)?)),
        None => metadata_in(alloc, value_of(alloc, document)?),
    }
}
