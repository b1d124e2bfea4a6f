//! What an index is called, and its definition.
ghost use Rattle.std.specs.Prelude.{◌≡◌, ◌&&◌, IfOk, IfSome, None, Some, if◌then◌else◌, option_map};
ghost use Rattle.spec_server.specs.Opening.{may_be_named};
ghost use Rattle.index_definition.specs.DefinitionView.{definition_view};
ghost use Rattle.raven_world.specs.Kinds.{HasOwnName, begins_as, own_part as spec_own_part};
ghost use Rattle.spec_data.specs.Faults.{fault_of, is_fit};
ghost use Rattle.spec_data.specs.Limits.{max_index_name, max_name};
ghost use Rattle.spec_index.specs.World.{replaced_name};

use index_definition::DefBody;
use raven_base::NoMemory;
use raven_value::{IdRefusal, MAX_INDEX_NAME, Name, starts_folded};
use side_by_side::is_reserved_name;
use std::alloc::Global;

/// The name of an index, and the name that its definition has.
#[derive(Drop)]
pub struct IndexName {
    pub name: Name,

    /// That of a replacement is the name that it is to take.
    pub own: Name,
}

// The text without one leading `ReplacementOf/`, in any case of letters.
fn replaced(text: &str) -> &str
    ensures { result.now ≡ replaced_name text.now }
{
    if starts_folded(text.as_bytes(), b"replacementof/") {
        &text[14..]
    } else {
        text
    }
}

// The part of an index's name that is the name of its definition.
fn own_part<'a>(body: &DefBody, text: &'a str) -> &'a str
    ensures { result.now ≡ spec_own_part (definition_view body.now) text.now }
{
    match body {
        DefBody::Auto(_) => text,
        DefBody::Static { .. } => replaced(text),
    }
}

// Whether a name begins as one of its kind.
fn is_of_kind(body: &DefBody, name: &str) -> bool
    ensures { result ≡ begins_as (definition_view body.now) name.now }
{
    match body {
        DefBody::Auto(_) => starts_folded(name.as_bytes(), b"auto/"),
        DefBody::Static { .. } => !is_reserved_name(name),
    }
}

// The name that a definition has, if the text can be one.
#[tactic(auto, using(crate::proofs::Names::names))]
fn read_own(alloc: Global, body: &DefBody, text: &str) -> Result<Option<Name>, NoMemory>
    ensures { IfOk result (λ name. name ≡ if is_fit max_index_name text.now && begins_as (definition_view body.now) text.now then Some text.now else None) }
{
    if text.len() > MAX_INDEX_NAME || !is_of_kind(body, text) {
        return Ok(None);
    }
    match Name::new(alloc, text) {
        Ok(name) => Ok(Some(name)),
        Err(IdRefusal::NoMemory) => Err(NoMemory),
        Err(_) => Ok(None),
    }
}

// The name of an index, whose definition may have its name.
fn whole_name(alloc: Global, text: &str) -> Result<Name, NoMemory>
    requires { fault_of max_name text.now ≡ None }
    ensures { IfOk result (λ name. name ≡ text.now) }
{
    match Name::new(alloc, text) {
        Ok(name) => Ok(name),
        Err(refusal) => Err(refusal.memory_alone()),
    }
}

/// The name of an index, if the text can be one. The name of an automatic index begins with `Auto/`. That of another does not begin with a prefix
/// that is the server's, but it may be such a name behind `ReplacementOf/`.
pub fn read_name(alloc: Global, body: &DefBody, text: &str) -> Result<Option<IndexName>, NoMemory>
    ensures name { IfOk result (λ read. option_map (λ n. n.name) read ≡ if may_be_named (definition_view body.now) text.now then Some text.now else None) }
    ensures own { IfOk result (λ read. IfSome read HasOwnName) }
{
    let Some(own) = read_own(alloc, body, own_part(body, text))? else {
        return Ok(None);
    };
    let name = whole_name(alloc, text)?;
    Ok(Some(IndexName { name, own }))
}
