//! What is stored of a body.
ghost use Rattle.std.specs.Prelude.{◌≡◌, ◌∷◌, [], IfOk, codes, filter, not, option_map};
ghost use Rattle.spec_data.specs.Data.{entries_of, object};
ghost use Rattle.spec_data.specs.Members.{value_at};
ghost use Rattle.raven_value.specs.View.{data_of};
ghost use Rattle.spec_store.specs.Commit.{clean_metadata as spec_clean_metadata, collection_of as spec_collection_of, is_server_member as spec_is_own, named_collection as spec_named_collection, stored_body as spec_stored};

use raven_base::NoMemory;
use raven_value::{Members, Text, Value};
use std::alloc::Global;

/// Whether the server writes the member of this name in metadata itself.
pub fn is_own(name: &str) -> bool
    ensures { result ≡ spec_is_own name.now }
{
    name == "@id"
        || name == "@change-vector"
        || name == "@last-modified"
        || name == "@index-score"
        || name == "@collection"
}

// Whether the server writes the member itself.
fn is_own_member(member: &(Text, Value)) -> bool
    ensures { result ≡ spec_is_own member.now.0 }
{
    is_own(member.0.as_str())
}

// Takes out the members that the server writes itself.
fn drop_own(members: &mut Vec<(Text, Value)>)
    ensures { members.new.items ≡ filter (λ m. not (spec_is_own m.0)) members.old.items }
{
    members.retain(|member| !is_own_member(member));
}

fn clean_members(members: Members) -> Members
    ensures { result ≡ filter (λ m. not (spec_is_own m.0)) members }
{
    let mut kept = members.into_vec();
    drop_own(&mut kept);
    Members::of(kept)
}

#[tactic(auto, using(crate::proofs::Pairs::pairs))]
fn clean_metadata(alloc: Global, metadata: Option<Value>) -> Value
    ensures { data_of result ≡ spec_clean_metadata (option_map (λ v. data_of v) metadata) }
{
    match metadata {
        Some(Value::Map(members)) => Value::Map(clean_members(members)),
        _ => Value::Map(Members::new(alloc)),
    }
}

// The members with clean metadata.
#[tactic(auto, using(crate::proofs::Pairs::stored_members))]
fn with_metadata(alloc: Global, members: Members) -> Result<Value, NoMemory>
    ensures { IfOk result (λ value. data_of value ≡ spec_stored (object (entries_of members))) }
{
    let mut kept = members;
    let name = Text::of(alloc, "@metadata")?;
    let metadata = clean_metadata(alloc, kept.remove(&name));
    kept.put(name, metadata)?;
    Ok(Value::Map(kept))
}

/// The body as it is stored: its `@metadata` is an object without the members that the server writes itself. Its members are moved.
pub fn stored(alloc: Global, body: Value) -> Result<Value, NoMemory>
    ensures { IfOk result (λ value. data_of value ≡ spec_stored (data_of body)) }
{
    match body {
        Value::Map(members) => with_metadata(alloc, members),
        other => Ok(other),
    }
}

fn named_collection(alloc: Global, value: Option<&Value>) -> Result<Text, NoMemory>
    ensures { IfOk result (λ name. name ≡ spec_named_collection (option_map (λ v. data_of v.now) value.entry)) }
{
    match value {
        Some(Value::Text(text)) if !text.as_str().is_empty() => Ok(text.clone()?),
        _ => Ok(Text::of(alloc, "@empty")?),
    }
}

// The value at `@metadata.@collection`.
fn collection_value(body: &Value) -> Option<&Value>
    ensures { option_map (λ v. data_of v.now) result ≡ value_at (codes "@metadata" ∷ codes "@collection" ∷ []) (data_of body.now) }
{
    let metadata = body.get("@metadata")?;
    let collection = metadata.get("@collection")?;
    Some(collection)
}

/// The collection of a document: the text at `@metadata.@collection`, or `@empty` if there is none.
pub fn collection_of(alloc: Global, body: &Value) -> Result<Text, NoMemory>
    ensures { IfOk result (λ collection. collection ≡ spec_collection_of (data_of body.now)) }
{
    let collection = named_collection(alloc, collection_value(body))?;
    Ok(collection)
}
