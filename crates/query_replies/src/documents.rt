//! Documents as queries look them up and as the server shows them.
ghost use Rattle.std.specs.Prelude.{◌≡◌, IfOk, OnOk, option_map};
ghost use Rattle.spec_data.specs.Data.{text as spec_text};
ghost use Rattle.spec_data.specs.Rising.{put};
ghost use Rattle.raven_json.specs.Shown.{shown_with};
ghost use Rattle.raven_value.specs.View.{data_of};
ghost use Rattle.spec_server.specs.Answers.{members_of, shown_metadata as spec_shown_metadata};
ghost use Rattle.spec_server.specs.Shown.{shown as spec_shown};
ghost use Rattle.spec_store.specs.Store.{row_at};

use doc_store::Store;
use doc_txn::{BaseId, vector};
use map_stage::Lookup;
use raven_base::NoMemory;
use raven_json::{Shown, metadata_of};
use raven_reply::moment_text;
use raven_value::{Document, Id, Members, Row, Text, Value};
use rql_results::Show;
use std::alloc::Global;

fn put_text(alloc: Global, members: &mut Members, name: &str, text: Text) -> Result<(), NoMemory>
    ensures { OnOk result (members.new ≡ put name.now (spec_text text) members.old) }
{
    members.put_at(alloc, name, Value::Text(text))
}

// The members of an object, and none of any other value.
#[tactic(auto, using(crate::proofs::Pairs::pairs))]
fn members_in(alloc: Global, value: Option<Value>) -> Members
    ensures { result ≡ members_of (option_map (λ v. data_of v) value) }
{
    match value {
        Some(Value::Map(members)) => members,
        _ => Members::new(alloc),
    }
}

// The metadata of a document, with what the server knows of it.
fn with_server_members(
    alloc: Global,
    base: &BaseId,
    row: &Row,
    metadata: Option<Value>,
) -> Result<Members, NoMemory>
    ensures { IfOk result (λ members. members ≡ spec_shown_metadata base.now row.now (option_map (λ v. data_of v) metadata)) }
{
    let mut members = members_in(alloc, metadata);
    let collection = row.collection.clone()?;
    let id = Text::of(alloc, row.id.as_str())?;
    let changed = moment_text(alloc, row.changed)?;
    put_text(alloc, &mut members, "@last-modified", changed)?;
    put_text(alloc, &mut members, "@id", id)?;
    put_text(alloc, &mut members, "@collection", collection)?;
    put_text(
        alloc,
        &mut members,
        "@change-vector",
        vector(alloc, row.etag, base)?,
    )?;
    Ok(members)
}

/// The metadata with which a document is shown: its own, with what the server knows of it.
#[tactic(auto, using(crate::proofs::Shown::documents))]
pub fn shown_metadata(
    alloc: Global,
    base: &BaseId,
    row: &Row,
    document: &Document,
) -> Result<Value, NoMemory>
    ensures { IfOk result (λ metadata. shown_with document.now (data_of metadata) ≡ spec_shown base.now row.now document.now) }
{
    let metadata = metadata_of(alloc, document)?;
    Ok(Value::Map(with_server_members(alloc, base, row, metadata)?))
}

/// The rows of a store.
#[derive(Drop)]
pub struct StoreRows<'s> {
    pub store: &'s Store,
}

impl<'s> Lookup for StoreRows<'s> {
    ghost rows = { λ s q. row_at q s.store.now.rows };

    fn find(&self, id: &Id) -> Option<&Row> {
        self.store.get(id)
    }
}

/// Documents as they are shown by the server of this base id: with what it knows of them in their metadata.
#[derive(Drop)]
pub struct ShownBy<'b> {
    pub base: &'b BaseId,
}

impl<'b> Show for ShownBy<'b> {
    ghost shown = { λ s. spec_shown s.base.now };

    fn show(&self, alloc: Global, row: &Row, document: &Document) -> Result<Shown, NoMemory> {
        let metadata = shown_metadata(alloc, self.base, row, document)?;
        Ok(Shown::of_document(document.clone()?, metadata))
    }
}
