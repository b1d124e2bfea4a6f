//! Names of indexes, and the rows of their definitions.
ghost use Rattle.std.specs.Prelude.{◌≡◌, ◌++◌, IfOk, codes, decimal, string_bytes};
ghost use Rattle.spec_store.specs.Commit.{AnyVector, Delete, Put};
ghost use Rattle.spec_index.specs.World.{index_id as spec_index_id, is_reserved_name as spec_is_reserved_name, row_body as spec_row_body};
ghost use Rattle.doc_txn.specs.CommandView.{command_view};
ghost use Rattle.index_definition.specs.DefinitionView.{definition_view};

use doc_txn::{Command, Expect};
use index_definition::{Definition, row_body};
use raven_base::NoMemory;
use raven_value::{Id, Name, Shallow, starts_folded};
use std::alloc::Global;

/// Whether only the server gives such names.
pub fn is_reserved_name(name: &str) -> bool
    ensures { result ≡ spec_is_reserved_name name.now }
{
    starts_folded(name.as_bytes(), b"auto/") || starts_folded(name.as_bytes(), b"replacementof/")
}

/// The name with a slash and a number behind it.
pub fn with_number(alloc: Global, name: &str, number: u64) -> Result<String, NoMemory>
    ensures { IfOk result (λ text. string_bytes text ≡ name.now ++ (codes "/" ++ decimal number)) }
{
    let mut text = String::from_str(alloc, name)?;
    text.push_str("/")?;
    text.push_str(number.to_string(alloc)?.as_str())?;
    Ok(text)
}

/// The id of the row of the definition of this name.
pub fn index_id(alloc: Global, name: &Name) -> Result<Id, NoMemory>
    ensures { IfOk result (λ id. id ≡ spec_index_id name.now) }
{
    let mut text = String::from_str(alloc, "@index/")?;
    text.push_str(name.as_str())?;
    match Id::new(alloc, text.as_str()) {
        Ok(id) => Ok(id),
        Err(refusal) => Err(refusal.memory_alone()),
    }
}

// The body of the row of a definition.
#[tactic(auto, using(crate::proofs::Depths::depths))]
fn body_of(alloc: Global, definition: &Definition) -> Result<Shallow, NoMemory>
    ensures { IfOk result (λ body. body ≡ spec_row_body (definition_view definition.now.body)) }
{
    let body = row_body(alloc, definition)?;
    Ok(Shallow::of(body))
}

/// The command by which the definition of a name is put.
pub fn putting(alloc: Global, name: &Name, definition: &Definition) -> Result<Command, NoMemory>
    ensures { IfOk result (λ command. command_view command ≡ Put (spec_index_id name.now) AnyVector (spec_row_body (definition_view definition.now.body))) }
{
    Ok(Command::Put {
        id: index_id(alloc, name)?,
        expected: Expect::Any,
        body: body_of(alloc, definition)?,
    })
}

/// The command by which the definition of a name is deleted.
pub fn deleting(alloc: Global, name: &Name) -> Result<Command, NoMemory>
    ensures { IfOk result (λ command. command_view command ≡ Delete (spec_index_id name.now) AnyVector) }
{
    Ok(Command::Delete {
        id: index_id(alloc, name)?,
        expected: Expect::Any,
    })
}
