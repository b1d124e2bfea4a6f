//! What an index has recorded.
ghost use Rattle.std.specs.Prelude.{◌≡◌, IfOk};
ghost use Rattle.std.specs.FinMap.{empty, get};
ghost use Rattle.spec_data.specs.Rows as model;
ghost use Rattle.spec_data.specs.Tables.{note_row, note_rows};
ghost use Rattle.reference_track.specs.Folded.{by_folded};

use map_stage::Lookup;
use paged_map::PagedMap;
use raven_base::{NoMemory, Shared};
use raven_value::{Body, Id, Row};
use std::alloc::{AllocError, Global};
use std::marker::Model;

/// The recorded documents, seen by contracts as the map from their folded ids to their rows.
///
/// A table and one that was made from it share most of their pages, so each row that is taken costs time and memory
/// that grow with the logarithm of the number of documents, and a clone takes none. What several rows change is copied once.
pub struct Table {
    rows: PagedMap<Id, Shared<Row>>,
}

// Opaque drop: see raven_base.
impl Drop for Table {
    fn drop(self) {
        let Table { rows: _rows } = self;
    }
}

impl Model for Table {
    ghost use Rattle.spec_data.specs.Tables as index;
    ghost use Rattle.spec_data.specs.Codes.{table_code};
    ghost use Rattle.reference_track.specs.Folded.{by_folded};

    ghost Value = { index.Table };

    ghost coded = { table_code };

    ghost view = { λ a. by_folded a.rows };
}

impl Table {
    /// No documents.
    pub fn new(alloc: Global) -> Result<Table, NoMemory>
        ensures { IfOk result (λ table. table ≡ empty) }
    {
        Ok(Table {
            rows: PagedMap::new(alloc)?,
        })
    }

    /// Puts each document of these rows in, and removes the id of each tombstone.
    pub fn after(&self, alloc: Global, taken: &[Shared<Row>]) -> Result<Table, NoMemory>
        ensures { IfOk result (λ table. table ≡ note_rows self.now taken.now) }
    {
        Ok(Table {
            rows: all_noted(alloc, &self.rows, taken)?,
        })
    }
}

impl Lookup for Table {
    ghost rows = { λ t q. get t q };

    fn find(&self, id: &Id) -> Option<&Row> {
        match self.rows.get(id) {
            Some(shared) => Some(shared.get()),
            None => None,
        }
    }
}

impl Clone for Table {
    ghost is_clone = { λ s t. t ≡ s };

    fn clone(&self) -> Result<Table, AllocError> {
        Ok(Table {
            rows: self.rows.clone()?,
        })
    }
}

/// Whether a row has a document.
pub fn is_document(row: &Row) -> bool
    ensures { result ≡ model.is_document row.now }
{
    matches!(row.body, Body::Doc(_))
}

fn all_noted(
    alloc: Global,
    rows: &PagedMap<Id, Shared<Row>>,
    taken: &[Shared<Row>],
) -> Result<PagedMap<Id, Shared<Row>>, NoMemory>
    ensures { IfOk result (λ new. by_folded new ≡ note_rows (by_folded rows.now) taken.now) }
{
    let mut new = rows.clone()?;
    for row in taken {
        new = noted(alloc, new, row)?;
    }
    Ok(new)
}

fn noted(
    alloc: Global,
    rows: PagedMap<Id, Shared<Row>>,
    row: &Shared<Row>,
) -> Result<PagedMap<Id, Shared<Row>>, NoMemory>
    ensures { IfOk result (λ new. by_folded new ≡ note_row (by_folded rows) row.now) }
{
    let taken = row.get();
    if is_document(taken) {
        let id = taken.id.clone()?;
        let shared = row.clone()?;
        Ok(rows.put(alloc, id, shared)?)
    } else {
        Ok(rows.take_out(alloc, &taken.id)?)
    }
}
