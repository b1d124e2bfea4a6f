//! Ids and bodies.
ghost use Rattle.std.specs.Prelude.{◌≡◌, ◌≤◌, IfOk, OnOk, option_map};
ghost use Rattle.spec_data.specs.Data.{depth, entries_of};
ghost use Rattle.spec_data.specs.Json.{reading};
ghost use Rattle.spec_data.specs.Limits.{max_depth};
ghost use Rattle.spec_data.specs.Members.{member};
ghost use Rattle.spec_data.specs.Rising.{without};
ghost use Rattle.spec_server.specs.Words.{id_read, json_read, name_read, object_read};
ghost use Rattle.spec_server.specs.Commands.{delete_read, put_read};
ghost use Rattle.doc_txn.specs.CommandView.{expect_view};
ghost use Rattle.raven_value.specs.View.{data_of};
ghost use Rattle.raven_request.specs.RequestView.{IsBadMember, Reads, request_view};

use crate::request::{ReadRefusal, Request};
use doc_txn::Expect;
use raven_base::NoMemory;
use raven_json::{JsonRefusal, read};
use raven_value::{Id, IdRefusal, Members, Name, Text, Value};
use std::alloc::Global;

/// The id of this text.
pub fn id_of(alloc: Global, text: &str) -> Result<Id, ReadRefusal>
    ensures { Reads (λ id. id) result (id_read text.now) }
{
    match Id::new(alloc, text) {
        Ok(id) => Ok(id),
        Err(IdRefusal::NoMemory) => Err(ReadRefusal::NoMemory),
        Err(refusal) => Err(ReadRefusal::BadId(refusal)),
    }
}

/// The name of this text.
pub fn name_of(alloc: Global, text: &str) -> Result<Name, ReadRefusal>
    ensures { Reads (λ name. name) result (name_read text.now) }
{
    match Name::new(alloc, text) {
        Ok(name) => Ok(name),
        Err(IdRefusal::NoMemory) => Err(ReadRefusal::NoMemory),
        Err(refusal) => Err(ReadRefusal::BadName(refusal)),
    }
}

/// The value of this JSON.
pub fn json_of(alloc: Global, json: &[u8]) -> Result<Value, ReadRefusal>
    ensures value { Reads (λ value. data_of value) result (json_read (reading json.now)) }
    ensures shallow { IfOk result (λ value. depth (data_of value) ≤ max_depth) }
{
    match read(alloc, json) {
        Ok(value) => Ok(value),
        Err(JsonRefusal::NotJson) => Err(ReadRefusal::NotJson),
        Err(JsonRefusal::NumberNotWhole) => Err(ReadRefusal::NumberNotWhole),
        Err(JsonRefusal::TooDeep) => Err(ReadRefusal::TooDeep),
        Err(JsonRefusal::NoMemory) => Err(ReadRefusal::NoMemory),
    }
}

/// That this member is missing or of another kind.
pub fn bad_member(alloc: Global, name: &str) -> ReadRefusal
    ensures { IsBadMember name.now result }
{
    match Text::of(alloc, name) {
        Ok(name) => ReadRefusal::BadMember { name },
        Err(_) => ReadRefusal::NoMemory,
    }
}

/// The value of the member of this name, which is moved out of the object.
pub fn taken(alloc: Global, members: &mut Members, name: &str) -> Result<Option<Value>, NoMemory>
    ensures value { IfOk result (λ value. option_map (λ v. data_of v) value ≡ member name.now (entries_of members.old)) }
    ensures rest { OnOk result (members.new ≡ without name.now members.old) }
{
    let name = Text::of(alloc, name)?;
    Ok(members.remove(&name))
}

/// This value, which has to be an object. A refusal has this name.
#[tactic(auto, using(crate::proofs::Readings::members))]
pub fn object_of(alloc: Global, name: &str, value: Option<Value>) -> Result<Value, ReadRefusal>
    ensures { Reads (λ object. data_of object) result (object_read name.now (option_map (λ v. data_of v) value)) }
{
    match value {
        Some(Value::Map(members)) => Ok(Value::Map(members)),
        _ => Err(bad_member(alloc, name)),
    }
}

/// A put of this body. The JSON is read first, then the id, and then the body has to be an object.
#[tactic(auto, using(crate::proofs::Readings::readings))]
pub fn put_of(
    alloc: Global,
    id: &str,
    expected: Expect,
    body: &[u8],
) -> Result<Request, ReadRefusal>
    ensures { Reads request_view result (put_read id.now (expect_view expected) (reading body.now)) }
{
    let value = json_of(alloc, body)?;
    let id = id_of(alloc, id)?;
    let body = object_of(alloc, "body", Some(value))?;
    Ok(Request::Put { id, expected, body })
}

/// A deletion of this id.
#[tactic(auto, using(crate::proofs::Readings::readings))]
pub fn delete_of(alloc: Global, expected: Expect, id: &str) -> Result<Request, ReadRefusal>
    ensures { Reads request_view result (delete_read (expect_view expected) id.now) }
{
    let id = id_of(alloc, id)?;
    Ok(Request::Delete { id, expected })
}
