//! What a command writes.
ghost use Rattle.std.specs.Prelude.{◌≡◌, IfOk, Some, None, if◌then◌else◌, option_and_then, option_copied};
ghost use Rattle.spec_data.specs.Folding.{folded};
ghost use Rattle.spec_data.specs.Rows.{doc, is_document};
ghost use Rattle.spec_store.specs.Store.{row_at};
ghost use Rattle.spec_store.specs.Commit.{collection_of as spec_collection_of, expected_of, id_of, row_spelling, row_of as spec_row_of, stored_body as spec_stored, tombstone as spec_tombstone};
ghost use Rattle.doc_txn.specs.CommandView.{command_view, expect_view};

use crate::command::{Command, Expect};
use crate::document::{collection_of, stored};
use doc_store::Store;
use raven_base::NoMemory;
use raven_json::document_of;
use raven_value::{Body, Id, Row, Shallow};
use std::alloc::Global;

/// The row, if it holds a document.
pub fn live<'a>(row: Option<&'a Row>) -> Option<&'a Row>
    ensures { option_copied result ≡ option_and_then (λ r. if is_document r then Some r else None) (option_copied row.entry) }
{
    match row {
        Some(found) if matches!(found.body, Body::Doc(_)) => row,
        _ => None,
    }
}

/// The id as the row that has it spells it, or as it is spelled here if no row has it.
pub fn spelling(id: &Id, old: Option<&Row>) -> Result<Id, NoMemory>
    ensures { IfOk result (λ spelled. spelled ≡ row_spelling id.now (option_copied old.entry)) }
{
    match old {
        Some(row) => Ok(row.id.clone()?),
        None => Ok(id.clone()?),
    }
}

#[tactic(auto, using(crate::proofs::Depths::depths))]
fn document_row(alloc: Global, etag: u64, id: Id, body: Shallow, now: u64) -> Result<Row, NoMemory>
    ensures { IfOk result (λ row. row ≡ record { etag = etag; id = id; collection = spec_collection_of body; body = doc (spec_stored body); changed = now }) }
{
    let collection = collection_of(alloc, body.value())?;
    let stored = stored(alloc, body.into_value())?;
    let document = document_of(alloc, &stored)?;
    Ok(Row {
        etag,
        id,
        collection,
        body: Body::Doc(document),
        changed: now,
    })
}

fn tombstone(etag: u64, old: &Row, now: u64) -> Result<Row, NoMemory>
    ensures { IfOk result (λ row. row ≡ spec_tombstone etag now old.now) }
{
    Ok(Row {
        etag,
        id: old.id.clone()?,
        collection: old.collection.clone()?,
        body: Body::Gone,
        changed: now,
    })
}

/// A command with the row that it would write in place of its body.
#[derive(Drop)]
pub struct Draft {
    /// The id of the command.
    pub id: Id,

    /// The vector that the document has to have.
    pub expected: Expect,

    /// The row, if it would write one.
    pub row: Option<Row>,
}

/// What a command would write. The row `old` is the one that its id has.
pub fn draft_of(
    alloc: Global,
    store: &Store,
    old: Option<&Row>,
    command: Command,
    now: u64,
) -> Result<Draft, NoMemory>
    requires { option_copied old ≡ row_at (folded (id_of (command_view command))) store.now.rows }
    ensures id { IfOk result (λ draft. draft.id ≡ id_of (command_view command)) }
    ensures expected { IfOk result (λ draft. expect_view draft.expected ≡ expected_of (command_view command)) }
    ensures row { IfOk result (λ draft. draft.row ≡ spec_row_of now store.now (command_view command)) }
{
    let etag = store.last() + 1;
    match command {
        Command::Put { id, expected, body } => {
            let spelled = spelling(&id, old)?;
            let row = Some(document_row(alloc, etag, spelled, body, now)?);
            Ok(Draft { id, expected, row })
        }
        Command::Delete { id, expected } => match live(old) {
            Some(row) => {
                let row = Some(tombstone(etag, row, now)?);
                Ok(Draft { id, expected, row })
            }
            None => Ok(Draft {
                id,
                expected,
                row: None,
            }),
        },
    }
}
