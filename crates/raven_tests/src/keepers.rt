//! A keeper in memory.
use raven_base::Sequence;
use raven_ports::{Keeper, KeptRow, KeptRows};
use raven_value::Text;
use sql_keeper::SqlKeeper;
use std::alloc::Global;
use std::test::Fail;

fn row(alloc: Global, etag: u64, id: &str, body: Option<&str>) -> Result<KeptRow, Fail> {
    let body = match body {
        Some(text) => Some(Text::of(alloc, text)?),
        None => None,
    };
    Ok(KeptRow {
        etag,
        id: Text::of(alloc, id)?,
        collection: Text::of(alloc, "Users")?,
        body,
        changed: 7,
    })
}

// What a keeper in memory gives back of two rows, which it is given in one commit.
fn given_back(alloc: Global, first: KeptRow, second: KeptRow) -> Result<KeptRows, Fail> {
    if second.etag <= first.etag {
        return Err(Fail::new("the etags do not rise"));
    }
    let mut rows = Sequence::new(alloc);
    rows.push(first)?;
    rows.push(second)?;
    let mut keeper = SqlKeeper::in_memory(alloc)?;
    keeper.commit(&rows)?;
    Ok(keeper.load(alloc, None, 9)?)
}

fn is_row(row: &KeptRow, etag: u64, id: &str, body: Option<&str>) -> bool {
    let has_body = match (&row.body, body) {
        (Some(text), Some(wanted)) => text.as_str() == wanted,
        (None, None) => true,
        _ => false,
    };
    let is_named = row.id.as_str() == id && row.collection.as_str() == "Users";
    has_body && is_named && row.etag == etag && row.changed == 7
}

#[test]
fn a_keeper_in_memory_gives_its_rows_back(rt: HostRuntime) -> Result<(), Fail> {
    let alloc = rt.alloc();
    let document = row(alloc, 3, "users/1", Some("{\"Name\":\"Ada\"}"))?;
    let tombstone = row(alloc, 5, "Users/2", None)?;
    let rows = given_back(alloc, document, tombstone)?;
    let [first, second] = rows.as_slice() else {
        return Err(Fail::new("there are not two rows"));
    };
    assert!(rt; is_row(first, 3, "users/1", Some("{\"Name\":\"Ada\"}")));
    assert!(rt; is_row(second, 5, "Users/2", None));
    Ok(())
}
