//! A page of the documents of a collection, in order of their ids.
ghost use Rattle.std.specs.Prelude.{◌≡◌, ◌<◌, ◌++◌, ◌∷◌, ◌&&◌, List, IfOk, IfSome, OnOk, cond, drop, filter, take};
ghost use Rattle.std.specs.FinMap.{values};
ghost use Rattle.std.specs.Str.{bytes_eq};
ghost use Rattle.spec_data.specs.Rows as spec_rows;
ghost use Rattle.spec_data.specs.Rows.{is_document};
ghost use Rattle.spec_data.specs.Tables.{table_of};
ghost use Rattle.spec_store.specs.Store.{AreApart};
ghost use Rattle.doc_store.specs.Maps.{rows_in};

use crate::sorting::sorted_by_id;
use paged_map::Pairs;
use raven_base::{NoMemory, Shared};
use raven_value::{Body, Id, Row, Text};
use std::alloc::Global;

/// Whether a row is a document of a collection.
fn is_document_of(row: &Row, collection: &Text) -> bool
    ensures { result ≡ (bytes_eq row.now.collection collection.now && is_document row.now) }
{
    row.collection.as_str() == collection.as_str() && matches!(row.body, Body::Doc(_))
}

/// If a row is met, it is one of the first `skip`, which are left out, or the next of the page, which wants `want` more.
fn add_if(
    met: bool,
    row: &Shared<Row>,
    found: &mut Vec<Shared<Row>>,
    skip: &mut u64,
    want: &mut u64,
) -> Result<(), NoMemory>
    requires { 0 < want.now }
    ensures { OnOk result ((more : List spec_rows.Row) → found.old.items ++ take want.old (drop skip.old (cond met (row.now ∷ more) more)) ≡ found.new.items ++ take want.new (drop skip.new more)) }
{
    if met && *skip > 0 {
        *skip -= 1;
    } else if met {
        found.push(row.clone()?)?;
        *want -= 1;
    }
    Ok(())
}

/// Of the documents of a collection among these rows `size` at most, after the first `start`. It looks at `most` rows at most, and
/// gives nothing if these are not enough.
pub fn walked(
    alloc: Global,
    mut rows: Pairs<'_, Id, Shared<Row>>,
    collection: &Text,
    start: u64,
    size: u64,
    most: u64,
) -> Result<Option<Vec<Shared<Row>>>, NoMemory>
    ensures { IfOk result (λ page. IfSome page (λ found. found.items ≡ take size (drop start (filter (λ r. bytes_eq r.collection collection.now && is_document r) (rows_in rows.entry))))) }
{
    let mut found = Vec::new(alloc);
    let mut skip = start;
    let mut want = size;
    let mut left = most;
    while want > 0 {
        if left == 0 {
            return Ok(None);
        }
        left -= 1;
        let Some(pair) = rows.next() else {
            return Ok(Some(found));
        };
        let met = is_document_of(pair.1.get(), collection);
        add_if(met, &pair.1, &mut found, &mut skip, &mut want)?;
    }
    Ok(Some(found))
}

/// The rows of these pairs.
fn rows_of(alloc: Global, pairs: &[(Id, Shared<Row>)]) -> Result<Vec<Shared<Row>>, NoMemory>
    ensures { IfOk result (λ rows. rows.items ≡ rows_in pairs.now) }
{
    let mut rows = Vec::with_capacity(alloc, pairs.len())?;
    for pair in pairs {
        rows.push(pair.1.clone()?)?;
    }
    Ok(rows)
}

/// The items without the first `start` of them, and of those that are left `size` at most.
fn cut<T>(items: &[T], start: u64, size: u64) -> &[T]
    ensures { result.now ≡ take size (drop start items.now) }
{
    let start = (items.len() as u64).min(start) as usize;
    let rest = &items[start..];
    let size = (rest.len() as u64).min(size) as usize;
    &rest[..size]
}

/// Of these rows, in order of their ids, `size` at most, after the first `start`.
pub fn gathered(
    alloc: Global,
    rows: &[Shared<Row>],
    start: u64,
    size: u64,
) -> Result<Vec<Shared<Row>>, NoMemory>
    requires { AreApart rows.now }
    ensures { IfOk result (λ page. page.items ≡ take size (drop start (values (table_of rows.now)))) }
{
    let pairs = sorted_by_id(alloc, rows)?;
    Ok(rows_of(alloc, cut(&pairs, start, size))?)
}
