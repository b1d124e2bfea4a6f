//! Rows by etag.
ghost use Rattle.std.specs.Prelude.{◌≡◌, true, false, ◌≤◌, ◌<◌, ◌+◌, ◌-◌, ◌^◌, [], IfOk, Some, filter, length, nat_le, nat_lt, not, option_map};
ghost use Rattle.std.specs.Option.{option_copied};
ghost use Rattle.std.specs.Int.{from_bool};
ghost use Rattle.std.specs.List.{find};
ghost use Rattle.spec_data.specs.Rows as spec_rows;
ghost use Rattle.spec_data.specs.Rows.{is_document as spec_is_document, key};
ghost use Rattle.spec_store.specs.Store.{AreRising, last_of, put, row_at};
ghost use Rattle.spec_store.specs.Stale.{up_to};
ghost use Rattle.doc_store.specs.Bounds.{AreRows};
ghost use Rattle.doc_store.specs.Maps.{AreFrom, etag_in, is_document_in as spec_is_document_in, is_from, rows_in, without_etag, without_key};

use paged_map::{PagedMap, Pairs};
use raven_base::{NoMemory, Shared};
use raven_value::{Body, Id, Row};
use std::alloc::{AllocError, Global};
use std::cmp::Ordering;
use std::marker::Model;

/// Rows in order of etag, one for each id, seen by contracts as their list.
///
/// A clone shares all pages, and a change copies only pages that others have too.
#[derive(Drop)]
pub struct RowsByEtag {
    rows: PagedMap<u64, Shared<Row>>,
    /// The greatest etag, or 0.
    last: u64,
    /// How many of the rows are documents.
    documents: u64,
    /// No row has an id before this one. It is the least id that a row ever had.
    least: Option<Id>,
}

impl Model for RowsByEtag {
    ghost use Rattle.std.specs.Prelude.{List};
    ghost use Rattle.std.specs.Coded.{coded_list};
    ghost use Rattle.spec_data.specs.Codes.{row_code};
    ghost use Rattle.spec_data.specs.Rows as spec_rows;
    ghost use Rattle.doc_store.specs.Maps.{ShowsByEtag, rows_in};

    ghost Value = { List spec_rows.Row };

    ghost coded = { coded_list row_code };

    ghost view = { λ a. rows_in a.rows };

    ghost invariant = { λ a. ShowsByEtag a.rows a.last a.documents a.least (rows_in a.rows) };
}

/// The row in a map.
fn row_of(pair: Option<&(u64, Shared<Row>)>) -> Option<&Shared<Row>>
    ensures { option_copied result ≡ option_map (λ e. e.1) (option_copied pair.entry) }
{
    match pair {
        Some(pair) => Some(&pair.1),
        None => None,
    }
}

/// The etag of the last row of a map, or 0 if there is none.
fn last_in(rows: &PagedMap<u64, Shared<Row>>) -> u64
    ensures { result ≡ last_of 0 (rows_in rows.now) }
{
    match rows.nth(rows.len().saturating_sub(1)) {
        Some(pair) => pair.1.get().etag,
        None => 0,
    }
}

/// A map without an etag, if one is given.
pub fn without_etag(
    alloc: Global,
    rows: PagedMap<u64, Shared<Row>>,
    etag: Option<u64>,
) -> Result<PagedMap<u64, Shared<Row>>, NoMemory>
    ensures { IfOk result (λ left. left ≡ without_etag etag rows) }
{
    match etag {
        Some(etag) => Ok(rows.take_out(alloc, &etag)?),
        None => Ok(rows),
    }
}

/// Whether a row is a document, and no tombstone.
pub fn is_document(row: &Row) -> bool
    ensures { result ≡ spec_is_document row.now }
{
    matches!(row.body, Body::Doc(_))
}

/// How many of these rows are documents.
fn documents_among(rows: &[Shared<Row>]) -> u64
    ensures { result ≡ length (filter spec_is_document rows.now) }
{
    let mut documents = 0;
    for row in rows {
        if is_document(row.get()) {
            documents += 1;
        }
    }
    documents
}

/// Those rows that are documents.
fn documents_of(
    alloc: Global,
    rows: Pairs<'_, u64, Shared<Row>>,
) -> Result<Vec<Shared<Row>>, NoMemory>
    ensures { IfOk result (λ documents. documents.items ≡ filter spec_is_document (rows_in rows.entry)) }
{
    let mut documents = Vec::new(alloc);
    for pair in rows {
        if is_document(pair.1.get()) {
            documents.push(pair.1.clone()?)?;
        }
    }
    Ok(documents)
}

/// The etag of a row, if there is one.
fn etag_in(row: &Option<Shared<Row>>) -> Option<u64>
    ensures { result ≡ etag_in row.now }
{
    match row {
        Some(row) => Some(row.get().etag),
        None => None,
    }
}

/// Whether there is a row, and it is a document.
fn is_document_in(row: &Option<Shared<Row>>) -> bool
    ensures { result ≡ spec_is_document_in row.now }
{
    match row {
        Some(row) => is_document(row.get()),
        None => false,
    }
}

/// How many documents there are with a row in place of an earlier one, or with one more.
fn documents_with(documents: u64, replaced: &Option<Shared<Row>>, row: &Row) -> u64
    requires some { from_bool (spec_is_document_in replaced.now) ≤ documents }
    requires few { documents + 1 < 2 ^ 64 }
    ensures { result ≡ documents - from_bool (spec_is_document_in replaced.now) + from_bool (spec_is_document row.now) }
{
    documents - u64::from(is_document_in(replaced)) + u64::from(is_document(row))
}

/// The lesser of an id, if one is given, and that of a row.
fn least_with(least: Option<Id>, row: &Row) -> Result<Option<Id>, NoMemory>
    ensures own { IfOk result (λ id. is_from id row.now ≡ true) }
    ensures others { IfOk result (λ id. (r : spec_rows.Row) → is_from least r ≡ true → is_from id r ≡ true) }
{
    let Some(id) = least else {
        return Ok(Some(row.id.clone()?));
    };
    match id.cmp(&row.id) {
        Ordering::Greater => Ok(Some(row.id.clone()?)),
        Ordering::Less | Ordering::Equal => Ok(Some(id)),
    }
}

impl RowsByEtag {
    /// No rows.
    pub fn new(alloc: Global) -> Result<RowsByEtag, NoMemory>
        ensures { IfOk result (λ rows. rows ≡ []) }
    {
        Ok(RowsByEtag {
            rows: PagedMap::new(alloc)?,
            last: 0,
            documents: 0,
            least: None,
        })
    }

    /// These rows, in time that is linear in their number.
    pub fn of(alloc: Global, rows: &[Shared<Row>]) -> Result<RowsByEtag, NoMemory>
        requires { AreRows rows.now }
        ensures { IfOk result (λ all. all ≡ rows.now) }
    {
        let mut pairs = Vec::with_capacity(alloc, rows.len())?;
        let mut last = 0;
        let mut least = None;
        for row in rows {
            last = row.get().etag;
            least = least_with(least, row.get())?;
            pairs.push((last, row.clone()?))?;
        }
        Ok(RowsByEtag {
            rows: PagedMap::from_sorted(alloc, pairs)?,
            last,
            documents: documents_among(rows),
            least,
        })
    }

    /// How many of the rows are documents. It looks at none.
    pub fn documents(&self) -> u64
        ensures { result ≡ length (filter spec_is_document self.now) }
    {
        self.documents
    }

    /// How many of the rows are tombstones. It looks at none.
    pub fn tombstones(&self) -> u64
        ensures { result ≡ length (filter (λ r. not (spec_is_document r)) self.now) }
    {
        self.rows.len() - self.documents
    }

    /// How many rows there are.
    pub fn len(&self) -> u64
        ensures { result ≡ length self.now }
    {
        self.rows.len()
    }

    /// The rows without this one, which is a tombstone among them. It looks at no other row but the last.
    pub fn without_tombstone(self, alloc: Global, row: &Row) -> Result<RowsByEtag, NoMemory>
        requires here { row_at (key row.now) self ≡ Some row.now }
        requires tombstone { spec_is_document row.now ≡ false }
        ensures { IfOk result (λ left. left ≡ without_key (key row.now) self) }
    {
        let RowsByEtag {
            rows,
            documents,
            least,
            ..
        } = self;
        let left = rows.take_out(alloc, &row.etag)?;
        Ok(RowsByEtag {
            last: last_in(&left),
            rows: left,
            documents,
            least,
        })
    }

    /// No row has an id before this one. There is none if there are no rows.
    pub fn least(&self) -> Option<&Id>
        ensures { AreFrom (option_map (λ id. id.now) result) self.now }
    {
        self.least.as_ref()
    }

    /// The documents, in order of etag. It looks at all rows.
    pub fn all_documents(&self, alloc: Global) -> Result<Vec<Shared<Row>>, NoMemory>
        ensures documents { IfOk result (λ documents. documents.items ≡ filter spec_is_document self.now) }
        ensures store { AreRows self.now }
    {
        Ok(documents_of(alloc, self.rows.iter())?)
    }

    /// The first row past an etag.
    pub fn first_after(&self, etag: u64) -> Option<&Shared<Row>>
        ensures row { option_copied result ≡ find (λ r. nat_lt etag r.etag) self.now }
        ensures rising { AreRising 0 self.now }
    {
        row_of(self.rows.first_after(&etag))
    }

    /// The greatest etag up to a bound, or 0.
    pub fn last_up_to(&self, bound: Option<u64>) -> u64
        ensures { result ≡ last_of 0 (filter (λ r. up_to bound r.etag) self.now) }
    {
        match bound {
            None => self.last,
            Some(most) => if self.last <= most {
                self.last
            } else {
                self.last_at_most(most)
            },
        }
    }

    /// The greatest etag that is at most this one, or 0. The map has no search from above, so each turn halves the etags
    /// between which it can be.
    fn last_at_most(&self, most: u64) -> u64
        ensures { result ≡ last_of 0 (filter (λ r. nat_le r.etag most) self.now) }
    {
        let mut low = 0;
        let mut high = most;
        while low < high {
            let middle = low + (high - low) / 2;
            match self.first_after(middle) {
                Some(row) if row.get().etag <= high => low = row.get().etag,
                _ => high = middle,
            }
        }
        low
    }

    /// The rows with this one at the end, in place of the given one, which is that of its id. Its etag is past theirs.
    pub fn put(
        self,
        alloc: Global,
        row: Shared<Row>,
        replaced: &Option<Shared<Row>>,
    ) -> Result<RowsByEtag, NoMemory>
        requires replaced { replaced.now ≡ row_at (key row) self }
        requires newer { last_of 0 self < row.etag }
        ensures { IfOk result (λ rows. rows ≡ put row self) }
    {
        let RowsByEtag {
            rows,
            documents,
            least,
            ..
        } = self;
        let etag = row.get().etag;
        let least = least_with(least, row.get())?;
        let documents = documents_with(documents, replaced, row.get());
        let beside = without_etag(alloc, rows, etag_in(replaced))?;
        Ok(RowsByEtag {
            rows: beside.put(alloc, etag, row)?,
            last: etag,
            documents,
            least,
        })
    }
}

impl Clone for RowsByEtag {
    ghost is_clone = { λ s t. t ≡ s };

    fn clone(&self) -> Result<RowsByEtag, AllocError> {
        Ok(RowsByEtag {
            rows: self.rows.clone()?,
            last: self.last,
            documents: self.documents,
            least: self.least.clone()?,
        })
    }
}
