//! Walks over the rows of a store's maps.
ghost use Rattle.std.specs.Prelude.{◌≡◌, false, ◌<◌, ◌^◌, ℕ, List, IfOk, Some, filter, if◌then◌else◌, nat_lt, not};
ghost use Rattle.std.specs.List.{find};
ghost use Rattle.std.specs.BTreeMap.{insert_entry};
ghost use Rattle.std.specs.Option.{option_copied};
ghost use Rattle.raven_base.specs.Counts.{one_read_more};
ghost use Rattle.spec_data.specs.Rows.{is_document, key};
ghost use Rattle.spec_store.specs.Store.{last_of, put, row_at};
ghost use Rattle.spec_store.specs.Stale.{up_to};
ghost use Rattle.doc_store.specs.Maps.{earlier, id_cmp, is_of, passing_beside, rows_in, rows_of, without_key};

use crate::rows_by_etag::RowsByEtag;
use paged_map::{PagedMap, Pairs};
use raven_base::{NoMemory, Shared, Steps};
use raven_value::{Id, Row, Text};
use std::alloc::Global;
use std::sync::ledger::Ledger;

/// The etag of the last row, or 0 if there is none.
pub fn last_etag(rows: &[Shared<Row>]) -> u64
    ensures { result ≡ last_of 0 rows.now }
{
    let mut etag = 0;
    for row in rows {
        etag = row.get().etag;
    }
    etag
}

/// All rows.
pub fn all_of<K: Ord>(
    alloc: Global,
    rows: Pairs<'_, K, Shared<Row>>,
) -> Result<Vec<Shared<Row>>, NoMemory>
    ensures { IfOk result (λ all. all.items ≡ rows_in rows.entry) }
{
    let mut all = Vec::new(alloc);
    for pair in rows {
        all.push(pair.1.clone()?)?;
    }
    Ok(all)
}

/// Of two rows the one with the lower etag, or the only one.
pub fn earlier<'a>(
    a: Option<&'a Shared<Row>>,
    b: Option<&'a Shared<Row>>,
) -> Option<&'a Shared<Row>>
    ensures { option_copied result ≡ earlier (option_copied a.entry) (option_copied b.entry) }
{
    let Some(first) = a else {
        return b;
    };
    match b {
        Some(second) => if second.get().etag < first.get().etag {
            b
        } else {
            a
        },
        None => a,
    }
}

/// The rows of a collection.
fn rows_of(
    alloc: Global,
    collections: &PagedMap<Text, RowsByEtag>,
    collection: &Text,
) -> Result<RowsByEtag, NoMemory>
    ensures { IfOk result (λ rows. rows ≡ rows_of collections.now collection.now) }
{
    match collections.get(collection) {
        Some(rows) => Ok(rows.clone()?),
        None => RowsByEtag::new(alloc),
    }
}

/// The rows by id with this one more, in place of the one of its id.
pub fn put_under_id(
    alloc: Global,
    rows: PagedMap<Id, Shared<Row>>,
    row: &Shared<Row>,
) -> Result<PagedMap<Id, Shared<Row>>, NoMemory>
    ensures { IfOk result (λ changed. changed ≡ insert_entry id_cmp rows row.now.id row.now) }
{
    let id = row.get().id.clone()?;
    let shared = row.clone()?;
    rows.put(alloc, id, shared)
}

/// The rows of all collections, with this one put among those of its collection, in place of the given one, which is that of its
/// id. Its etag is past theirs.
pub fn put_among(
    alloc: Global,
    collections: PagedMap<Text, RowsByEtag>,
    row: Shared<Row>,
    replaced: &Option<Shared<Row>>,
) -> Result<PagedMap<Text, RowsByEtag>, NoMemory>
    requires replaced { replaced.now ≡ row_at (key row) (rows_of collections row.collection) }
    requires newer { last_of 0 (rows_of collections row.collection) < row.etag }
    ensures { IfOk result (λ changed. (c : List ℕ) → rows_of changed c ≡ (if is_of c row then put row (rows_of collections c) else rows_of collections c)) }
{
    let name = row.get().collection.clone()?;
    let rows = rows_of(alloc, &collections, &name)?;
    // They are taken out before they change. As long as the map has them too, their pages have two owners and would be copied.
    let others = collections.take_out(alloc, &name)?;
    let changed = rows.put(alloc, row, replaced)?;
    Ok(others.put(alloc, name, changed)?)
}

/// The rows of all collections, with this one, which is a tombstone, taken out of those of its collection.
pub fn take_out_among(
    alloc: Global,
    collections: PagedMap<Text, RowsByEtag>,
    row: &Row,
) -> Result<PagedMap<Text, RowsByEtag>, NoMemory>
    requires here { row_at (key row.now) (rows_of collections row.now.collection) ≡ Some row.now }
    requires tombstone { is_document row.now ≡ false }
    ensures { IfOk result (λ left. (c : List ℕ) → rows_of left c ≡ (if is_of c row.now then without_key (key row.now) (rows_of collections c) else rows_of collections c)) }
{
    let name = row.collection.clone()?;
    let rows = rows_of(alloc, &collections, &name)?;
    // As in `put_among`, they are taken out before they change.
    let others = collections.take_out(alloc, &name)?;
    let left = rows.without_tombstone(alloc, row)?;
    Ok(others.put(alloc, name, left)?)
}

/// The first row of a collection past an etag. The look for it is counted as a row read, whether there is one or not.
pub fn first_of<'a, L: Ledger>(
    collections: &'a PagedMap<Text, RowsByEtag>,
    collection: &Text,
    etag: u64,
    steps: &mut Steps<L>,
) -> Option<&'a Shared<Row>>
    ensures row { option_copied result ≡ find (λ r. nat_lt etag r.etag) (rows_of collections.now collection.now) }
    ensures counted { steps.new ≡ one_read_more steps.old }
{
    steps.row_read();
    match collections.get(collection) {
        Some(rows) => rows.first_after(etag),
        None => None,
    }
}

/// The greatest etag of a collection up to a bound, or 0.
pub fn newest_of(
    collections: &PagedMap<Text, RowsByEtag>,
    collection: &Text,
    upto: Option<u64>,
) -> u64
    ensures { result ≡ last_of 0 (filter (λ r. up_to upto r.etag) (rows_of collections.now collection.now)) }
{
    match collections.get(collection) {
        Some(rows) => rows.last_up_to(upto),
        None => 0,
    }
}

/// How many documents and tombstones there are.
#[derive(Clone, Copy)]
pub struct Counts {
    pub documents: u32,
    pub tombstones: u32,
}

/// How many documents and tombstones are in other collections than this one. It looks at no row.
pub fn counts_beside(collections: Pairs<'_, Text, RowsByEtag>, collection: &str) -> Counts
    requires documents { passing_beside is_document collection.now collections < 2 ^ 32 }
    requires tombstones { passing_beside (λ r. not (is_document r)) collection.now collections < 2 ^ 32 }
    ensures documents { result.documents ≡ passing_beside is_document collection.now collections.entry }
    ensures tombstones { result.tombstones ≡ passing_beside (λ r. not (is_document r)) collection.now collections.entry }
{
    let mut documents = 0;
    let mut tombstones = 0;
    for pair in collections {
        if pair.0.as_str() != collection {
            documents += pair.1.documents() as u32;
            tombstones += pair.1.tombstones() as u32;
        }
    }
    Counts {
        documents,
        tombstones,
    }
}
