//! The commands of a transaction, in JSON.
ghost use Rattle.std.specs.Prelude.{◌≤◌, IfSome, Some, codes, map, option_map};
ghost use Rattle.spec_data.specs.Data.{array, depth, entries_of, items_depth, items_of, object};
ghost use Rattle.spec_data.specs.Json.{reading};
ghost use Rattle.spec_data.specs.Limits.{max_depth};
ghost use Rattle.spec_data.specs.Members.{member};
ghost use Rattle.spec_server.specs.Words.{object_read};
ghost use Rattle.spec_server.specs.Commands.{bulk_read, command_read, commands_of as spec_commands_of, commands_read as spec_commands_read, delete_command as spec_delete_command, id_member as spec_id_member, list_member, put_command as spec_put_command, typed_command as spec_typed_command, vector_member as spec_vector_member};
ghost use Rattle.raven_value.specs.View.{data_of};
ghost use Rattle.doc_txn.specs.CommandView.{command_view, expect_view};
ghost use Rattle.raven_request.specs.RequestView.{Reads, request_view};

use crate::body::{bad_member, id_of, json_of, object_of, taken};
use crate::request::{ReadRefusal, Request};
use doc_txn::{Command, Commands, Expect};
use raven_value::{Id, Members, Shallow, Value, Values};
use std::alloc::Global;

#[tactic(auto, using(crate::proofs::Readings::members))]
fn id_member(alloc: Global, value: Option<&Value>) -> Result<Id, ReadRefusal>
    ensures { Reads (λ id. id) result (spec_id_member (option_map (λ v. data_of v.now) value.entry)) }
{
    match value {
        Some(Value::Text(text)) => id_of(alloc, text.as_str()),
        _ => Err(bad_member(alloc, "Id")),
    }
}

#[tactic(auto, using(crate::proofs::Readings::members))]
fn vector_member(alloc: Global, value: Option<&Value>) -> Result<Expect, ReadRefusal>
    ensures { Reads expect_view result (spec_vector_member (option_map (λ v. data_of v.now) value.entry)) }
{
    match value {
        None | Some(Value::Null) => Ok(Expect::Any),
        Some(Value::Text(vector)) => Ok(Expect::Vector(vector.clone()?)),
        Some(_) => Err(bad_member(alloc, "ChangeVector")),
    }
}

#[tactic(auto, using(crate::proofs::Depths::depths))]
fn document_member(alloc: Global, mut members: Members) -> Result<Shallow, ReadRefusal>
    requires { depth (object (entries_of members)) ≤ max_depth }
    ensures { Reads (λ document. document) result (object_read (codes "Document") (member (codes "Document") (entries_of members))) }
{
    let document = object_of(alloc, "Document", taken(alloc, &mut members, "Document")?)?;
    Ok(Shallow::of(document))
}

// A put, into which the document is moved.
#[tactic(auto, using(crate::proofs::Readings::readings))]
fn put_command(alloc: Global, members: Members) -> Result<Command, ReadRefusal>
    requires { depth (object (entries_of members)) ≤ max_depth }
    ensures { Reads command_view result (spec_put_command (entries_of members)) }
{
    let id = id_member(alloc, members.get("Id"))?;
    let expected = vector_member(alloc, members.get("ChangeVector"))?;
    let body = document_member(alloc, members)?;
    Ok(Command::Put { id, expected, body })
}

#[tactic(auto, using(crate::proofs::Readings::readings))]
fn delete_command(alloc: Global, members: &Members) -> Result<Command, ReadRefusal>
    ensures { Reads command_view result (spec_delete_command (entries_of members.now)) }
{
    let id = id_member(alloc, members.get("Id"))?;
    let expected = vector_member(alloc, members.get("ChangeVector"))?;
    Ok(Command::Delete { id, expected })
}

#[tactic(auto, using(crate::proofs::Readings::members))]
fn typed_command(alloc: Global, members: Members) -> Result<Command, ReadRefusal>
    requires { depth (object (entries_of members)) ≤ max_depth }
    ensures { Reads command_view result (spec_typed_command (member (codes "Type") (entries_of members)) (entries_of members)) }
{
    let Some(Value::Text(text)) = members.get("Type") else {
        return Err(bad_member(alloc, "Type"));
    };
    let is_put = text.as_str() == "PUT";
    let is_delete = text.as_str() == "DELETE";
    if is_put {
        put_command(alloc, members)
    } else if is_delete {
        delete_command(alloc, &members)
    } else {
        Err(bad_member(alloc, "Type"))
    }
}

#[tactic(auto, using(crate::proofs::Readings::members))]
fn command_of(alloc: Global, value: Value) -> Result<Command, ReadRefusal>
    requires { depth (data_of value) ≤ max_depth }
    ensures { Reads command_view result (command_read (data_of value)) }
{
    match value {
        Value::Map(members) => typed_command(alloc, members),
        _ => Err(bad_member(alloc, "Commands")),
    }
}

#[tactic(auto, using(crate::proofs::Readings::lists, crate::proofs::Depths::list_depths))]
fn commands_read(alloc: Global, values: Vec<Value>) -> Result<Vec<Command>, ReadRefusal>
    requires { items_depth (items_of (map data_of values.items)) ≤ max_depth }
    ensures { Reads (λ commands. map command_view commands.items) result (spec_commands_read (map data_of values.items)) }
{
    let mut commands = Vec::new(alloc);
    for value in values {
        let command = command_of(alloc, value)?;
        if commands.push(command).is_err() {
            return Err(ReadRefusal::NoMemory);
        }
    }
    Ok(commands)
}

#[tactic(auto, using(crate::proofs::Readings::members))]
fn listed(alloc: Global, values: Values) -> Result<Commands, ReadRefusal>
    requires { depth (array (items_of values)) ≤ max_depth }
    ensures { Reads (λ commands. map command_view commands) result (list_member (Some (array (items_of values)))) }
{
    let commands = commands_read(alloc, values.into_vec())?;
    Ok(Commands::of(commands))
}

#[tactic(auto, using(crate::proofs::Readings::members))]
fn commands_in(alloc: Global, value: Option<Value>) -> Result<Commands, ReadRefusal>
    requires { IfSome (option_map (λ v. data_of v) value) (λ d. depth d ≤ max_depth) }
    ensures { Reads (λ commands. map command_view commands) result (list_member (option_map (λ v. data_of v) value)) }
{
    match value {
        Some(Value::List(values)) => listed(alloc, values),
        _ => Err(bad_member(alloc, "Commands")),
    }
}

// The commands of a body that has them in its member `Commands`. Their documents are moved out of the body.
#[tactic(auto, using(crate::proofs::Readings::members, crate::proofs::Depths::depths))]
fn commands_of(alloc: Global, value: Value) -> Result<Commands, ReadRefusal>
    requires { depth (data_of value) ≤ max_depth }
    ensures { Reads (λ commands. map command_view commands) result (spec_commands_of (data_of value)) }
{
    match value {
        Value::Map(mut members) => commands_in(alloc, taken(alloc, &mut members, "Commands")?),
        _ => Err(bad_member(alloc, "body")),
    }
}

/// A transaction of this JSON.
#[tactic(auto, using(crate::proofs::Readings::readings))]
pub fn bulk_of(alloc: Global, json: &[u8]) -> Result<Request, ReadRefusal>
    ensures { Reads request_view result (bulk_read json.now) }
{
    let value = json_of(alloc, json)?;
    let commands = commands_of(alloc, value)?;
    Ok(Request::Bulk { commands })
}
