//! The store.
ghost use Rattle.std.specs.Str.{bytes_eq};
ghost use Rattle.std.specs.Prelude.{◌≡◌, false, ◌≤◌, ◌<◌, ◌+◌, ◌-◌, ◌*◌, ◌&&◌, ◌↔◌, ℕ, IfOk, IfSome, IsSome, IsTrue, Some, drop, filter, length, nat_lt, not, option_copied, take};
ghost use Rattle.std.specs.List.{find, list_any};
ghost use Rattle.spec_data.specs.Folding.{folded};
ghost use Rattle.spec_data.specs.Limits.{max_etag};
ghost use Rattle.spec_data.specs.Rows.{is_document, key};
ghost use Rattle.spec_store.specs.Store.{AreApart, AreRising, IsStore, empty_store, last, row_at, store_of, with_row, with_rows};
ghost use Rattle.spec_store.specs.Later.{MayFollowAll};
ghost use Rattle.spec_store.specs.Stale.{newest, past, stale, batch_rows};
ghost use Rattle.spec_data.specs.Tables.{in_scope, table_of};
ghost use Rattle.std.specs.FinMap.{values};
ghost use Rattle.spec_store.specs.Cleaning.{is_old_tombstone, old_tombstones, without_tombstones};
ghost use Rattle.doc_store.specs.Maps.{is_of, without_key};
ghost use Rattle.doc_store.specs.Bounds.{AreCleaned, AreWithin, IsWithin};
ghost use Rattle.doc_store.specs.Steps.{MayStand};

use crate::page::{gathered, walked};
use crate::rows::{
    Counts, all_of, counts_beside, earlier, first_of, last_etag, newest_of, put_among,
    put_under_id, take_out_among,
};
use crate::rows_by_etag::RowsByEtag;
use crate::sorting::{all_shared, by_collection, sorted_by_id};
use crate::tombstones::{put_tombstone, tombstones_of};
use paged_map::{PagedMap, is_rising};
use raven_base::{NoMemory, Shared, Steps};
use raven_value::{Id, Row, Rows, Scope, Text};
use std::alloc::{AllocError, Global};
use std::marker::Model;
use std::sync::ledger::Ledger;

/// The rows of a database, one for each id, seen by contracts as their list in order of etag.
/// Etags are from 1 to 9,007,199,254,740,991, and there are fewer than 2^32 rows.
///
/// A clone shares all pages and takes no memory, and a change copies only pages that others have too. So a change takes time
/// and memory that grow with the logarithm of the number of rows.
pub struct Store {
    by_id: PagedMap<Id, Shared<Row>>,
    /// The rows of each collection, so that an index reads no rows but those in its scope.
    by_collection: PagedMap<Text, RowsByEtag>,
    /// The tombstones under their etags, so that a cleaning looks at no rows but those that go.
    tombstones: PagedMap<u64, Shared<Row>>,
    /// The greatest etag, or 0.
    last: u64,
    /// The etag up to which tombstones were cleaned, or 0.
    cleaned: u64,
}

// Opaque drop: see raven_base.
impl Drop for Store {
    fn drop(self) {
        let Store {
            by_id: _by_id,
            by_collection: _by_collection,
            tombstones: _tombstones,
            last: _last,
            cleaned: _cleaned,
        } = self;
    }
}

impl Model for Store {
    ghost use Rattle.spec_store.specs.Store as stores;
    ghost use Rattle.spec_store.specs.Codes.{store_code};
    ghost use Rattle.doc_store.specs.Maps.{ShowsStore, ordered_by_etag, rows_in};

    ghost Value = { stores.Store };

    ghost coded = { store_code };

    ghost view = { λ a. record { rows = ordered_by_etag (rows_in a.by_id); cleaned = a.cleaned } };

    ghost invariant = { λ a. ShowsStore a.by_id a.by_collection a.tombstones a.last a.cleaned (ordered_by_etag (rows_in a.by_id)) };
}

impl Store {
    /// A store without rows.
    pub fn empty(alloc: Global) -> Result<Store, NoMemory>
        ensures { IfOk result (λ store. store ≡ empty_store) }
    {
        Ok(Store {
            by_id: PagedMap::new(alloc)?,
            by_collection: PagedMap::new(alloc)?,
            tombstones: PagedMap::new(alloc)?,
            last: 0,
            cleaned: 0,
        })
    }

    /// The store of these rows, or nothing if two of them have one id. The rows are in order of etag.
    ///
    /// Each map is made of a sorted list, and not by one change after another.
    pub(crate) fn of(alloc: Global, rows: &[Shared<Row>]) -> Result<Option<Store>, NoMemory>
        requires rising { AreRising 0 rows.now }
        requires within { AreWithin rows.now }
        ensures made { IfOk result (λ store. IfSome store (λ s. s ≡ store_of rows.now)) }
        ensures apart { IfOk result (λ store. IsSome store ↔ AreApart rows.now) }
    {
        let shared = all_shared(alloc, rows)?;
        let ids = sorted_by_id(alloc, &shared)?;
        if !is_rising(&ids) {
            return Ok(None);
        }
        Ok(Some(Store {
            by_id: PagedMap::from_sorted(alloc, ids)?,
            by_collection: by_collection(alloc, shared)?,
            tombstones: tombstones_of(alloc, rows)?,
            last: last_etag(rows),
            cleaned: 0,
        }))
    }

    /// The row of an id, which may be a tombstone. It takes no memory.
    pub fn get(&self, id: &Id) -> Option<&Row>
        ensures { option_copied result ≡ row_at (folded id.now) self.now.rows }
    {
        match self.by_id.get(id) {
            Some(shared) => Some(shared.get()),
            None => None,
        }
    }

    /// The greatest etag, or 0. The etags of every store rise, and no two of its rows have one id.
    pub fn last(&self) -> u64
        ensures last { result ≡ last self.now }
        ensures bound { result ≤ max_etag }
        ensures store { IsStore self.now }
    {
        self.last
    }

    /// The etag up to which tombstones were cleaned, or 0. Each tombstone of the store is past it.
    pub fn cleaned(&self) -> u64
        ensures { result ≡ self.now.cleaned }
    {
        self.cleaned
    }

    /// How many rows there are, tombstones among them.
    pub fn len(&self) -> u32
        ensures { result ≡ length self.now.rows }
    {
        self.by_id.len() as u32
    }

    /// Whether there are no rows.
    pub fn is_empty(&self) -> bool
        ensures { IsTrue result ↔ (self.now ≡ empty_store) }
    {
        self.by_id.is_empty()
    }

    /// How many documents and tombstones there are in all collections but this one. It looks at no row, and takes time that
    /// grows with the number of collections.
    pub fn counts_beside(&self, collection: &str) -> Counts
        ensures documents { result.documents ≡ length (filter (λ r. not (bytes_eq r.collection collection.now) && is_document r) self.now.rows) }
        ensures tombstones { result.tombstones ≡ length (filter (λ r. not (bytes_eq r.collection collection.now) && not (is_document r)) self.now.rows) }
    {
        counts_beside(self.by_collection.iter(), collection)
    }

    /// All rows, in order of their folded ids.
    pub fn rows(&self, alloc: Global) -> Result<Rows, NoMemory>
        ensures { IfOk result (λ rows. rows ≡ values (table_of self.now.rows)) }
    {
        Ok(Rows::of(all_of(alloc, self.by_id.iter())?))
    }

    /// How many documents a collection has. It looks at no row.
    pub fn documents_in(&self, collection: &Text) -> u32
        ensures { result ≡ length (filter (λ r. bytes_eq r.collection collection.now && is_document r) self.now.rows) }
    {
        match self.by_collection.get(collection) {
            Some(rows) => rows.documents() as u32,
            None => 0,
        }
    }

    /// Of the documents of a collection, in order of their folded ids, those after the first `start`, `size` at most.
    ///
    /// It looks at rows in order of id, from the least id of the collection on, until the page is full. If it has looked at as many
    /// as the collection has rows, it sorts the documents of the collection instead. So the time does not grow with the rows of
    /// other collections; and if the ids of the collection follow one another, it grows with `start` and the page alone.
    pub fn documents_page(
        &self,
        alloc: Global,
        collection: &Text,
        start: u64,
        size: u64,
    ) -> Result<Rows, NoMemory>
        ensures { IfOk result (λ rows. rows ≡ take size (drop start (values (table_of (filter (λ r. bytes_eq r.collection collection.now && is_document r) self.now.rows))))) }
    {
        match self.by_collection.get(collection) {
            Some(rows) => Ok(Rows::of(self.page_of(alloc, rows, collection, start, size)?)),
            None => Ok(Rows::new(alloc)),
        }
    }

    /// Of the documents of a collection, whose rows are given, those after the first `start`, `size` at most.
    fn page_of(
        &self,
        alloc: Global,
        rows: &RowsByEtag,
        collection: &Text,
        start: u64,
        size: u64,
    ) -> Result<Vec<Shared<Row>>, NoMemory>
        requires { rows.now ≡ filter (is_of collection.now) self.now.rows }
        ensures { IfOk result (λ page. page.items ≡ take size (drop start (values (table_of (filter (λ r. bytes_eq r.collection collection.now && is_document r) self.now.rows))))) }
    {
        if let Some(least) = rows.least() {
            let from = self.by_id.from(least);
            if let Some(page) = walked(alloc, from, collection, start, size, rows.len())? {
                return Ok(page);
            }
        }
        let documents = rows.all_documents(alloc)?;
        Ok(gathered(alloc, &documents, start, size)?)
    }

    /// The first `max` rows in scope past an etag, by etag, and whether more remain.
    ///
    /// For each row that it gives, and once more, it looks for the first row of each collection of the scope, and each look is
    /// counted as a row read. It looks at no other collection. A look takes time that grows with the logarithm of the number of
    /// rows.
    pub fn rows_after<L: Ledger>(
        &self,
        alloc: Global,
        etag: u64,
        scope: &Scope,
        max: u32,
        steps: &mut Steps<L>,
    ) -> Result<(Rows, bool), NoMemory>
        ensures rows { IfOk result (λ r. r.0 ≡ batch_rows scope.now etag self.now max) }
        ensures more { IfOk result (λ r. IsTrue r.1 ↔ (max < length (past scope.now etag self.now))) }
        ensures maps { steps.new.maps ≡ steps.old.maps }
        ensures merges { steps.new.merges ≡ steps.old.merges }
        ensures reads { steps.new.reads ≤ steps.old.reads + (length (batch_rows scope.now etag self.now max) + 1) * length scope.now }
    {
        let collections = scope.as_slice();
        let mut found = Rows::new(alloc);
        let mut after = etag;
        while let Some(row) = self.first_past(after, collections, steps) {
            if found.len() == max as usize {
                return Ok((found, true));
            }
            found.push(row.clone()?)?;
            after = row.get().etag;
        }
        Ok((found, false))
    }

    /// The first row in scope past an etag. It takes no memory.
    fn first_past<L: Ledger>(
        &self,
        etag: u64,
        scope: &[Text],
        steps: &mut Steps<L>,
    ) -> Option<&Shared<Row>>
        ensures row { option_copied result ≡ find (λ r. in_scope scope.now r && nat_lt etag r.etag) self.now.rows }
        ensures sound { IsStore self.now }
        ensures maps { steps.new.maps ≡ steps.old.maps }
        ensures merges { steps.new.merges ≡ steps.old.merges }
        ensures reads { steps.new.reads ≡ steps.old.reads + length scope.now }
    {
        let collections = &self.by_collection;
        let mut first = None;
        for collection in scope {
            first = earlier(first, first_of(collections, collection, etag, steps));
        }
        first
    }

    /// The greatest etag of a row in scope up to a bound, or 0. An index is stale up to that bound exactly if its etag is less.
    /// It takes no memory, and counts no row as read.
    pub fn newest(&self, scope: &Scope, upto: Option<u64>) -> u64
        ensures newest { result ≡ newest self.now scope.now upto }
        ensures stale { (etag : ℕ) → stale self.now scope.now etag upto ≡ nat_lt etag result }
    {
        self.newest_in_scope(scope.as_slice(), upto)
    }

    /// Whether an index of this scope is stale at an etag: whether there is a row in scope past it, up to the cutoff. It takes no memory,
    /// and counts no row as read.
    pub fn stale(&self, scope: &Scope, etag: u64, cutoff: Option<u64>) -> bool
        ensures { result ≡ stale self.now scope.now etag cutoff }
    {
        etag < self.newest(scope, cutoff)
    }

    fn newest_in_scope(&self, scope: &[Text], upto: Option<u64>) -> u64
        ensures newest { result ≡ newest self.now scope.now upto }
        ensures sound { IsStore self.now }
    {
        let collections = &self.by_collection;
        let mut newest: u64 = 0;
        for collection in scope {
            newest = newest.max(newest_of(collections, collection, upto));
        }
        newest
    }

    /// The row of an id, shared with this store.
    fn shared_at(&self, id: &Id) -> Result<Option<Shared<Row>>, NoMemory>
        ensures { IfOk result (λ row. row ≡ row_at (folded id.now) self.now.rows) }
    {
        match self.by_id.get(id) {
            Some(row) => Ok(Some(row.clone()?)),
            None => Ok(None),
        }
    }

    /// The store with one row more, in place of an earlier row of its id. Its etag is past all others, and it is in the
    /// collection of the earlier row.
    ///
    /// Pages that no other store has are changed in place, and the others are copied. If it runs out of memory, this store is
    /// gone, and its clones stay.
    pub fn put_row(self, alloc: Global, row: Shared<Row>) -> Result<Store, NoMemory>
        requires stands { MayStand self row }
        requires within { IsWithin (with_row self row) }
        ensures { IfOk result (λ store. store ≡ with_row self row) }
    {
        let replaced = self.shared_at(&row.get().id)?;
        self.put_shared(alloc, row, &replaced)
    }

    /// As `put_row`, in place of the given row, which is that of its id.
    fn put_shared(
        self,
        alloc: Global,
        row: Shared<Row>,
        replaced: &Option<Shared<Row>>,
    ) -> Result<Store, NoMemory>
        requires replaced { replaced.now ≡ row_at (key row) self.rows }
        requires stands { MayStand self row }
        requires within { IsWithin (with_row self row) }
        ensures { IfOk result (λ store. store ≡ with_row self row) }
    {
        let Store {
            by_id,
            by_collection,
            tombstones,
            last: _last,
            cleaned,
        } = self;
        let last = row.get().etag;
        let ids = put_under_id(alloc, by_id, &row)?;
        let gone = put_tombstone(alloc, tombstones, &row, replaced)?;
        let collections = put_among(alloc, by_collection, row, replaced)?;
        Ok(Store {
            by_id: ids,
            by_collection: collections,
            tombstones: gone,
            last,
            cleaned,
        })
    }

    /// As `put_row`, of a row that is lent.
    pub(crate) fn put_lent(self, alloc: Global, row: &Shared<Row>) -> Result<Store, NoMemory>
        requires stands { MayStand self row.now }
        requires within { IsWithin (with_row self row.now) }
        ensures { IfOk result (λ store. store ≡ with_row self row.now) }
    {
        self.put_row(alloc, row.clone()?)
    }

    /// The tombstones up to an etag, in order of etag. It looks at no other row.
    pub fn old_tombstones(&self, alloc: Global, upto: u64) -> Result<Rows, NoMemory>
        ensures old { IfOk result (λ rows. rows ≡ old_tombstones upto self.now.rows) }
        ensures store { IsStore self.now }
    {
        let old = self.tombstones.range(&0, &upto);
        Ok(Rows::of(all_of(alloc, old)?))
    }

    /// Whether there is a tombstone up to an etag. It looks at the first tombstone alone, and takes no memory.
    pub fn has_old_tombstone(&self, upto: u64) -> bool
        ensures { result ≡ list_any (is_old_tombstone upto) self.now.rows }
    {
        match self.tombstones.nth(0) {
            Some(first) => first.0 <= upto,
            None => false,
        }
    }

    /// The store without its tombstones up to the etag `cleaned`, which are given, and which are then known to be cleaned. The row
    /// with the greatest etag is past them, so it stays.
    ///
    /// For each row that goes, at most two pages of each level are copied in each map, and no page is copied twice. This store
    /// stays, and shares all other pages.
    pub fn without(&self, alloc: Global, gone: &Rows, cleaned: u64) -> Result<Store, NoMemory>
        requires gone { gone.now ≡ old_tombstones cleaned self.now.rows }
        requires below { cleaned ≤ last self.now - 1 }
        requires onward { self.now.cleaned ≤ cleaned }
        ensures { IfOk result (λ store. store ≡ record { rows = without_tombstones cleaned self.now.rows; cleaned = cleaned }) }
    {
        let mut store = self.clone()?;
        for row in gone.as_slice() {
            store = store.without_tombstone(alloc, row.get())?;
        }
        Ok(store.cleaned_up_to(cleaned))
    }

    /// The store without this row, which is a tombstone, and is not the row with the greatest etag.
    fn without_tombstone(self, alloc: Global, row: &Row) -> Result<Store, NoMemory>
        requires here { row_at (key row.now) self.rows ≡ Some row.now }
        requires tombstone { is_document row.now ≡ false }
        requires before { row.now.etag < last self }
        ensures { IfOk result (λ store. store ≡ record { rows = without_key (key row.now) self.rows; cleaned = self.cleaned }) }
    {
        let Store {
            by_id,
            by_collection,
            tombstones,
            last,
            cleaned,
        } = self;
        Ok(Store {
            by_id: by_id.take_out(alloc, &row.id)?,
            by_collection: take_out_among(alloc, by_collection, row)?,
            tombstones: tombstones.take_out(alloc, &row.etag)?,
            last,
            cleaned,
        })
    }

    /// The same rows, of which the tombstones up to an etag were cleaned.
    fn cleaned_up_to(self, cleaned: u64) -> Store
        requires { AreCleaned cleaned self.rows }
        ensures { result ≡ record { rows = self.rows; cleaned = cleaned } }
    {
        let Store {
            by_id,
            by_collection,
            tombstones,
            last,
            cleaned: _cleaned,
        } = self;
        Store {
            by_id,
            by_collection,
            tombstones,
            last,
            cleaned,
        }
    }

    /// A new store with further rows, one after another, each in place of an earlier row of its id.
    pub fn with_rows(&self, alloc: Global, rows: &Rows) -> Result<Store, NoMemory>
        requires follow { MayFollowAll self.now rows.now }
        requires within { IsWithin (with_rows self.now rows.now) }
        ensures { IfOk result (λ store. store ≡ with_rows self.now rows.now) }
    {
        let mut store = self.clone()?;
        for row in rows.as_slice() {
            store = store.put_lent(alloc, row)?;
        }
        Ok(store)
    }
}

impl Clone for Store {
    ghost is_clone = { λ s t. t ≡ s };

    fn clone(&self) -> Result<Store, AllocError> {
        Ok(Store {
            by_id: self.by_id.clone()?,
            by_collection: self.by_collection.clone()?,
            tombstones: self.tombstones.clone()?,
            last: self.last,
            cleaned: self.cleaned,
        })
    }
}
