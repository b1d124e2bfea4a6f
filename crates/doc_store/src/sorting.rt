//! Rows in order of their ids and of their collections.
ghost use Rattle.std.specs.Prelude.{◌≡◌, ◌≤◌, ◌↔◌, ℕ, List, [], IfOk, drop, filter, length, take};
ghost use Rattle.std.specs.Map.{lookup};
ghost use Rattle.std.specs.BTreeMap.{is_at};
ghost use Rattle.paged_map.specs.Pairs.{IsRising};
ghost use Rattle.spec_data.specs.Folding.{folded};
ghost use Rattle.spec_store.specs.Store.{AreApart, row_at};
ghost use Rattle.doc_store.specs.Bounds.{AreRows};
ghost use Rattle.doc_store.specs.Maps.{AreByCollection, AreFiled, NoneBelow, by_id, id_cmp, is_of, rows_of};

use crate::rows_by_etag::RowsByEtag;
use paged_map::PagedMap;
use raven_base::{NoMemory, Shared};
use raven_value::{Id, Row, Text};
use std::alloc::Global;

/// The same rows in a list of their own.
pub fn all_shared(alloc: Global, rows: &[Shared<Row>]) -> Result<Vec<Shared<Row>>, NoMemory>
    ensures { IfOk result (λ shared. shared.items ≡ rows.now) }
{
    let mut shared = Vec::with_capacity(alloc, rows.len())?;
    for row in rows {
        shared.push(row.clone()?)?;
    }
    Ok(shared)
}

/// The rows under their ids.
fn with_ids(alloc: Global, rows: &[Shared<Row>]) -> Result<Vec<(Id, Shared<Row>)>, NoMemory>
    ensures { IfOk result (λ pairs. pairs.items ≡ by_id rows.now) }
{
    let mut pairs = Vec::with_capacity(alloc, rows.len())?;
    for row in rows {
        pairs.push((row.get().id.clone()?, row.clone()?))?;
    }
    Ok(pairs)
}

/// The rows under their ids, in order of these.
pub fn sorted_by_id(alloc: Global, rows: &[Shared<Row>]) -> Result<Vec<(Id, Shared<Row>)>, NoMemory>
    ensures found { IfOk result (λ pairs. (q : List ℕ) → lookup (is_at (id_cmp q)) pairs.items ≡ row_at (folded q) rows.now) }
    ensures filed { IfOk result (λ pairs. AreFiled pairs.items) }
    ensures apart { IfOk result (λ pairs. IsRising id_cmp pairs.items ↔ AreApart rows.now) }
{
    let mut pairs = with_ids(alloc, rows)?;
    pairs.sort_by(|a, b| a.0.cmp(&b.0))?;
    Ok(pairs)
}

/// The rows in order of their collections. Those of one collection stay in the order in which they were.
fn sorted_by_collection(mut rows: Vec<Shared<Row>>) -> Result<Vec<Shared<Row>>, NoMemory>
    ensures same { IfOk result (λ ordered. (c : List ℕ) → filter (is_of c) ordered.items ≡ filter (is_of c) rows.items) }
    ensures ordered { IfOk result (λ ordered. AreByCollection ordered.items) }
{
    rows.sort_by(|a, b| a.get().collection.cmp(&b.get().collection))?;
    Ok(rows)
}

/// How many rows are in the first collection.
fn group_len(rows: &[Shared<Row>], collection: &Text) -> usize
    requires ordered { AreByCollection rows.now }
    requires first { NoneBelow collection.now rows.now }
    ensures within { result ≤ length rows.now }
    ensures group { take result rows.now ≡ filter (is_of collection.now) rows.now }
    ensures others { filter (is_of collection.now) (drop result rows.now) ≡ [] }
{
    let mut len = 0;
    while len < rows.len() && rows[len].get().collection == *collection {
        len += 1;
    }
    len
}

/// The rows of each collection.
pub fn by_collection(
    alloc: Global,
    rows: Vec<Shared<Row>>,
) -> Result<PagedMap<Text, RowsByEtag>, NoMemory>
    requires { AreRows rows.items }
    ensures { IfOk result (λ collections. (c : List ℕ) → rows_of collections c ≡ filter (is_of c) rows.items) }
{
    let sorted = sorted_by_collection(rows)?;
    let mut rest = sorted.as_slice();
    let mut collections = PagedMap::new(alloc)?;
    while let Some(first) = rest.first() {
        let name = &first.get().collection;
        let (group, others) = rest.split_at(group_len(rest, name));
        collections = collections.put(alloc, name.clone()?, RowsByEtag::of(alloc, group)?)?;
        rest = others;
    }
    Ok(collections)
}
