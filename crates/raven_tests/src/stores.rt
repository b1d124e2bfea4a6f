//! Stores.
ghost use Rattle.std.specs.Prelude.{◌≡◌, ◌≤◌};

use doc_store::Store;
use doc_txn::{BaseId, Command, Commands, Expect, Limits, TxnFault, TxnKind, Writer, commit};
use raven_base::{NoMemory, Shared, Steps};
use raven_json::{document_of, read};
use raven_value::{Body, Id, Row, Rows, Scope, Shallow, Text};
use std::alloc::Global;
use std::marker::Brand;
use std::sync::ledger::{Blank, Ledger};
use std::test::Fail;

fn body(alloc: Global, json: &str) -> Result<Body, Fail> {
    if json.is_empty() {
        return Ok(Body::Gone);
    }
    let value = read(alloc, json.as_bytes())?;
    Ok(Body::Doc(document_of(alloc, &value)?))
}

fn row(alloc: Global, etag: u64, id: &str, collection: &str, json: &str) -> Result<Row, Fail> {
    let id = Id::new(alloc, id)?;
    let collection = Text::of(alloc, collection)?;
    Ok(Row {
        etag,
        id,
        collection,
        body: body(alloc, json)?,
        changed: 0,
    })
}

fn rows(alloc: Global, all: &[(u64, &str, &str, &str)]) -> Result<Rows, Fail> {
    let mut rows = Rows::new(alloc);
    for (etag, id, collection, json) in all {
        let row = row(alloc, *etag, id, collection, json)?;
        rows.push(Shared::of(alloc, row)?)?;
    }
    Ok(rows)
}

/// A store of rows, one of each id, in order of etag: each is its etag, its id, its collection and its document. No text means that
/// the document was deleted.
pub fn opened(alloc: Global, all: &[(u64, &str, &str, &str)]) -> Result<Store, Fail> {
    let rows = rows(alloc, all)?;
    if rows.len() > 100 {
        return Err(Fail::new("too many rows"));
    }
    Ok(Store::open(alloc, &rows)?)
}

fn store(alloc: Global) -> Result<Store, Fail> {
    let rows = [
        (2, "Orders/1", "Orders", ""),
        (3, "users/10", "Users", ""),
        (4, "users/1", "Users", ""),
    ];
    opened(alloc, &rows)
}

// The etags of all rows, in the order of their ids.
fn etags(alloc: Global) -> Result<Vec<u64>, Fail> {
    let mut etags = Vec::new(alloc);
    for row in store(alloc)?.rows(alloc)?.as_slice() {
        etags.push(row.get().etag)?;
    }
    Ok(etags)
}

#[test]
fn rows_are_in_order_of_id(rt: HostRuntime) -> Result<(), Fail> {
    assert_eq!(rt; etags(rt.alloc())?.as_slice(), [2u64, 4, 3].as_slice());
    Ok(())
}

// The first rows in scope past an etag, and whether more remain. How many were read is not looked at.
fn first_rows<L: Ledger>(
    alloc: Global,
    store: &Store,
    etag: u64,
    scope: &Scope,
    max: u32,
    blank: Blank,
) -> Result<(Rows, bool), NoMemory>
    requires name { blank.name ≡ L.name }
    requires parts { blank.parts ≡ L.parts }
    requires enough { 3 ≤ blank.parts }
{
    let mut steps = Steps::<L>::new(blank);
    store.rows_after(alloc, etag, scope, max, &mut steps)
}

// The etags of the first rows of some collections past an etag, and whether more remain.
fn etags_after(
    alloc: Global,
    collections: &[&str],
    etag: u64,
    max: u32,
) -> Result<(Vec<u64>, bool), Fail> {
    let mut scope = Scope::new(alloc);
    for collection in collections {
        scope.push(Text::of(alloc, collection)?)?;
    }
    let store = store(alloc)?;
    let (rows, more) = first_rows::<Brand>(alloc, &store, etag, &scope, max, Blank::new(3))?;
    let mut etags = Vec::new(alloc);
    for row in rows.as_slice() {
        etags.push(row.get().etag)?;
    }
    Ok((etags, more))
}

#[test]
fn rows_of_collections_come_once_in_order_of_etag(rt: HostRuntime) -> Result<(), Fail> {
    let both = ["Users", "Orders", "Users"];
    let (all, more) = etags_after(rt.alloc(), &both, 0, 9)?;
    assert_eq!(rt; all.as_slice(), [2u64, 3, 4].as_slice());
    assert_eq!(rt; more, false);
    let (first, more) = etags_after(rt.alloc(), &both, 0, 2)?;
    assert_eq!(rt; first.as_slice(), [2u64, 3].as_slice());
    assert_eq!(rt; more, true);
    let (last, more) = etags_after(rt.alloc(), &["Orders", "Users"], 3, 1)?;
    assert_eq!(rt; last.as_slice(), [4u64].as_slice());
    assert_eq!(rt; more, false);
    Ok(())
}

fn puts(alloc: Global, ids: &[&str]) -> Result<Commands, Fail> {
    let mut commands = Commands::new(alloc);
    for id in ids {
        commands.push(Command::Put {
            id: Id::new(alloc, id)?,
            expected: Expect::Any,
            body: Shallow::of(read(alloc, b"{}")?),
        })?;
    }
    Ok(commands)
}

// Why puts of these ids are refused by a store that may have one row.
fn fault_of(alloc: Global, ids: &[&str]) -> Result<Option<TxnFault>, Fail> {
    let limits = Limits {
        rows: 1,
        slots: 0,
        notes: 0,
    };
    let commands = puts(alloc, ids)?;
    let base = BaseId::program(alloc)?;
    let store = Store::empty(alloc)?;
    Ok(commit(alloc, &store, commands, Writer::Client, &base, &limits, 0).err())
}

#[test]
fn a_full_store_takes_no_new_id(rt: HostRuntime) -> Result<(), Fail> {
    let again = fault_of(rt.alloc(), &["a", "A"])?;
    assert!(rt; again.is_none());
    let fault = fault_of(rt.alloc(), &["a", "A", "b"])?;
    let is_full = matches!(
        &fault,
        Some(TxnFault::Refused {
            at: 2,
            kind: TxnKind::StoreFull { rows: 1 },
        })
    );
    assert!(rt; is_full);
    Ok(())
}
