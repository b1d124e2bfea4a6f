//! A store of stored rows.
ghost use Rattle.std.specs.Prelude.{◌≡◌, ◌<◌, ◌^◌, [], None, IfErr, IfOk, length};
ghost use Rattle.spec_store.specs.Store.{store_of};
ghost use Rattle.doc_store.specs.declared.opening.OpenFault.TheVariants.{NoMemory as OutOfMemory};
ghost use Rattle.doc_store.specs.Opening.{Tells, are_next as spec_are_next, first_bad, is_next as spec_is_next, is_sound_after as spec_is_sound_after};

use crate::store::Store;
use raven_base::{NoMemory, Shared};
use raven_value::{END_OF_MOMENTS, MAX_ETAG, Row, Rows};
use std::alloc::Global;
use thiserror::Error;

/// Why a store is not opened.
#[derive(Clone, Copy, Debug, Drop, Error)]
pub enum OpenFault {
    /// A row is bad.
    #[error("the kept row with the etag {etag} is bad")]
    KeptBad {
        /// The etag of the first bad row.
        etag: u64,
    },

    /// Out of memory.
    #[error("no memory was found")]
    NoMemory,
}

impl From<NoMemory> for OpenFault {
    ghost from_gives = { λ _ fault. fault ≡ OutOfMemory };

    fn from(_lack: NoMemory) -> OpenFault {
        OpenFault::NoMemory
    }
}

/// Whether a row may follow one of this etag, if its id is new.
fn is_next(last: u64, row: &Row) -> bool
    ensures { result ≡ spec_is_next last row.now }
{
    last < row.etag
        && row.etag <= MAX_ETAG
        && 0 < row.collection.as_str().len()
        && row.changed < END_OF_MOMENTS
}

/// Whether each row may follow the one before, if its id is new.
fn are_next(rows: &[Shared<Row>]) -> bool
    ensures { result ≡ spec_are_next 0 rows.now }
{
    let mut last = 0;
    for row in rows {
        if !is_next(last, row.get()) {
            return false;
        }
        last = row.get().etag;
    }
    true
}

/// Whether a row may follow those of a store.
fn is_sound_after(store: &Store, row: &Row) -> bool
    ensures { result ≡ spec_is_sound_after store.now.rows row.now }
{
    is_next(store.last(), row) && store.get(&row.id).is_none()
}

impl Store {
    /// The store of these rows, in order of etag.
    ///
    /// A row is bad if its etag is not past those of the rows before it, or is greater than 9,007,199,254,740,991; if one of
    /// these has its id, without regard to case; if its collection is empty; or if it was changed in the year 9999 or later.
    /// The first bad row is reported. Whether the body is one that a store would take is not tested.
    ///
    /// The maps are made of sorted lists, all at once. Only if a row is bad, rows are put in one after another up to it.
    pub fn open(alloc: Global, rows: &Rows) -> Result<Store, OpenFault>
        requires few { length rows.now < 2 ^ 32 }
        ensures opened { IfOk result (λ store. store ≡ store_of rows.now) }
        ensures sound { IfOk result (λ _. first_bad [] rows.now ≡ None) }
        ensures fault { IfErr result (λ fault. Tells fault (first_bad [] rows.now)) }
    {
        let rows = rows.as_slice();
        if are_next(rows) {
            if let Some(store) = Store::of(alloc, rows)? {
                return Ok(store);
            }
        }
        Store::open_each(alloc, rows)
    }

    /// As `open`, but the rows are put in one after another, which finds the first bad one.
    fn open_each(alloc: Global, rows: &[Shared<Row>]) -> Result<Store, OpenFault>
        requires few { length rows.now < 2 ^ 32 }
        ensures opened { IfOk result (λ store. store ≡ store_of rows.now) }
        ensures sound { IfOk result (λ _. first_bad [] rows.now ≡ None) }
        ensures fault { IfErr result (λ fault. Tells fault (first_bad [] rows.now)) }
    {
        let mut store = Store::empty(alloc)?;
        for row in rows {
            if !is_sound_after(&store, row.get()) {
                return Err(OpenFault::KeptBad {
                    etag: row.get().etag,
                });
            }
            store = store.put_lent(alloc, row)?;
        }
        Ok(store)
    }
}
