//! The tombstones of a store under their etags.
ghost use Rattle.std.specs.Prelude.{◌≡◌, IfOk};
ghost use Rattle.spec_store.specs.Store.{AreRising};
ghost use Rattle.doc_store.specs.Maps.{by_etag, etag_in, tombstone_in, tombstones, with_tombstone, without_etag as spec_without_etag};

use crate::rows_by_etag::{is_document, without_etag};
use paged_map::PagedMap;
use raven_base::{NoMemory, Shared};
use raven_value::Row;
use std::alloc::Global;

/// Those of these rows that are tombstones, in time that is linear in the number of rows.
pub fn tombstones_of(
    alloc: Global,
    rows: &[Shared<Row>],
) -> Result<PagedMap<u64, Shared<Row>>, NoMemory>
    requires { AreRising 0 rows.now }
    ensures { IfOk result (λ found. found ≡ by_etag (tombstones rows.now)) }
{
    let mut pairs = Vec::new(alloc);
    for row in rows {
        if !is_document(row.get()) {
            pairs.push((row.get().etag, row.clone()?))?;
        }
    }
    PagedMap::from_sorted(alloc, pairs)
}

/// The etag of a row, if there is one and it is a tombstone.
fn tombstone_etag(row: &Option<Shared<Row>>) -> Option<u64>
    ensures { result ≡ etag_in (tombstone_in row.now) }
{
    match row {
        Some(row) if !is_document(row.get()) => Some(row.get().etag),
        _ => None,
    }
}

/// The tombstones with this row among them, if it is one, and without the row that it replaces, if that was one.
pub fn put_tombstone(
    alloc: Global,
    tombstones: PagedMap<u64, Shared<Row>>,
    row: &Shared<Row>,
    replaced: &Option<Shared<Row>>,
) -> Result<PagedMap<u64, Shared<Row>>, NoMemory>
    ensures { IfOk result (λ changed. changed ≡ with_tombstone row.now (spec_without_etag (etag_in (tombstone_in replaced.now)) tombstones)) }
{
    let others = without_etag(alloc, tombstones, tombstone_etag(replaced))?;
    if is_document(row.get()) {
        return Ok(others);
    }
    let shared = row.clone()?;
    others.put(alloc, row.get().etag, shared)
}
