//! The tests of a command.
ghost use Rattle.std.specs.Prelude.{◌≡◌, ◌<◌, ◌≤◌, ◌^◌, ℕ, List, length, IfOk, None, option_copied, option_map};
ghost use Rattle.spec_data.specs.Folding.{folded};
ghost use Rattle.spec_data.specs.Limits.{max_etag};
ghost use Rattle.spec_data.specs.Rows.{doc};
ghost use Rattle.spec_store.specs.Store.{last as spec_last, row_at};
ghost use Rattle.spec_store.specs.Commit.{Command as SpecCommand, differs, id_of, is_index_id as spec_is_index_id, live_vector as spec_live_vector, row_of as spec_row_of, with_option};
ghost use Rattle.doc_store.specs.Bounds.{IsWithin};
ghost use Rattle.doc_txn.specs.CommandView.{expect_view, writer_view};
ghost use Rattle.doc_txn.specs.FaultView.{kind_view};
ghost use Rattle.doc_txn.specs.SettingView.{setting_of};
ghost use Rattle.doc_txn.specs.TermsView.{setting_in};
ghost use Rattle.doc_txn.specs.Tests.{full_for, is_definition as spec_is_definition, large_body, large_row, moved_row, refused_for, reserved_for, spent_for};

use crate::base_id::{BaseId, vector};
use crate::command::{Expect, Writer};
use crate::fault::TxnKind;
use crate::limits::Limits;
use crate::row::live;
use doc_store::Store;
use raven_base::NoMemory;
use raven_value::{Body, Document, Id, MAX_BODY, MAX_ETAG, Row, Text, starts_folded};
use std::alloc::Global;

/// What no command of a transaction changes.
#[derive(Drop)]
pub struct Terms<'a> {
    pub writer: Writer,
    pub base: &'a BaseId,
    pub limits: &'a Limits,
    pub moment: u64,
}

/// Whether an id is that of the row of a definition: it begins with `@index/`, without regard to case.
pub fn is_index_id(id: &Id) -> bool
    ensures { result ≡ spec_is_index_id id.now }
{
    starts_folded(id.as_str().as_bytes(), b"@index/")
}

fn is_definition(row: Option<&Row>) -> bool
    ensures { result ≡ spec_is_definition (option_copied row.entry) }
{
    match row {
        Some(row) => matches!(row.body, Body::Doc(_)) && row.collection.as_str() == "@indexes",
        None => false,
    }
}

fn reserved(writer: Writer, id: &Id, row: Option<&Row>) -> Option<TxnKind>
    ensures { option_map kind_view result ≡ reserved_for (writer_view writer) id.now (option_copied row.entry) }
{
    match writer {
        Writer::Client if is_index_id(id) || is_definition(row) => Some(TxnKind::ReservedId),
        _ => None,
    }
}

fn too_long(document: &Document) -> Option<TxnKind>
    ensures { option_map kind_view result ≡ large_body (doc document.now) }
{
    let len = document.len() as u64;
    if len > MAX_BODY as u64 {
        Some(TxnKind::TooLarge { len })
    } else {
        None
    }
}

fn too_large(row: Option<&Row>) -> Option<TxnKind>
    ensures { option_map kind_view result ≡ large_row (option_copied row.entry) }
{
    let row = row?;
    match &row.body {
        Body::Doc(document) => too_long(document),
        Body::Gone => None,
    }
}

fn collection_changed(row: Option<&Row>, old: Option<&Row>) -> Result<Option<TxnKind>, NoMemory>
    ensures { IfOk result (λ kind. option_map kind_view kind ≡ moved_row (option_copied row.entry) (option_copied old.entry)) }
{
    match (row, old) {
        (Some(row), Some(old)) if row.collection != old.collection => {
            let from = old.collection.clone()?;
            Ok(Some(TxnKind::CollectionChanged { from }))
        }
        _ => Ok(None),
    }
}

fn live_vector(alloc: Global, base: &BaseId, document: Option<&Row>) -> Result<Text, NoMemory>
    ensures { IfOk result (λ found. found ≡ spec_live_vector base.now (option_copied document.entry)) }
{
    match document {
        Some(row) => vector(alloc, row.etag, base),
        None => Text::of(alloc, ""),
    }
}

fn conflict(
    alloc: Global,
    base: &BaseId,
    expected: &Expect,
    document: Option<&Row>,
) -> Result<Option<TxnKind>, NoMemory>
    ensures { IfOk result (λ kind. option_map kind_view kind ≡ differs (expect_view expected.now) (spec_live_vector base.now (option_copied document.entry))) }
{
    let Expect::Vector(expected) = expected else {
        return Ok(None);
    };
    let found = live_vector(alloc, base, document)?;
    if *expected == found {
        return Ok(None);
    }
    let expected = expected.clone()?;
    Ok(Some(TxnKind::Conflict { expected, found }))
}

fn store_full(
    store: &Store,
    limits: &Limits,
    row: Option<&Row>,
    old: Option<&Row>,
) -> Option<TxnKind>
    ensures counts { (length store.now.rows < 2 ^ 32) × (limits.now.rows < 2 ^ 32) }
    ensures full { (base : List ℕ) → option_map kind_view result ≡ full_for (setting_of base limits.now) store.now (option_copied row.entry) (option_copied old.entry) }
{
    let rows = store.len();
    let most = limits.rows;
    if row.is_some() && old.is_none() && most <= rows {
        Some(TxnKind::StoreFull { rows })
    } else {
        None
    }
}

fn etags_spent(store: &Store, row: Option<&Row>) -> Option<TxnKind>
    ensures bound { spec_last store.now ≤ max_etag }
    ensures spent { option_map kind_view result ≡ spent_for store.now (option_copied row.entry) }
{
    let last = store.last();
    if row.is_some() && last == MAX_ETAG {
        Some(TxnKind::EtagsSpent { last })
    } else {
        None
    }
}

/// The first test that refuses the command of this id and this expected vector. The row `old` is the one that the id has, and `row` the one
/// that the command would write. If no test refuses it, its row fits into the store.
pub fn refusal_of(
    alloc: Global,
    store: &Store,
    old: Option<&Row>,
    id: &Id,
    expected: &Expect,
    row: Option<&Row>,
    terms: &Terms,
) -> Result<Option<TxnKind>, NoMemory>
    requires { option_copied old ≡ row_at (folded id.now) store.now.rows }
    ensures fits { IfOk result (λ kind. kind ≡ None → (now : ℕ) (c : SpecCommand) → option_copied row.entry ≡ spec_row_of now store.now c → id.now ≡ id_of c → IsWithin (with_option store.now (option_copied row.entry))) }
    ensures refused { IfOk result (λ kind. option_map kind_view kind ≡ refused_for (setting_in terms.entry.now) (writer_view terms.entry.now.writer) store.now id.now (expect_view expected.now) (option_copied row.entry)) }
{
    let reserved = reserved(terms.writer, id, row);
    let large = too_large(row);
    let changed = collection_changed(row, old)?;
    let conflict = conflict(alloc, terms.base, expected, live(old))?;
    let full = store_full(store, terms.limits, row, old);
    let spent = etags_spent(store, row);
    Ok(
        reserved
            .or(large)
            .or(changed)
            .or(conflict)
            .or(full)
            .or(spent),
    )
}
