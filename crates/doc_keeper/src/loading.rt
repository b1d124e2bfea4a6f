//! Loading the rows of a database from their keeper.
ghost use Rattle.std.specs.Prelude.{◌≡◌, ◌≤◌, ◌<◌, ◌^◌, ◌⊎◌, ℕ, [], ◌∷◌, option_map, IfErr, IfOk, IsErrOf, None, Ok, length};
ghost use Rattle.doc_store.specs.Opening.{first_bad};
ghost use Rattle.doc_keeper.specs.Loading.{AreCalls, IsCause, IsLoaded, IsPage, IsPageFault};
ghost use Rattle.doc_keeper.specs.Reading.{has_place as spec_has_place, judged, read_on};
ghost use Rattle.doc_keeper.specs.declared.loading.LoadFault.TheVariants.{NoMemory as OutOfMemory};
ghost use Rattle.spec_data.specs.Kept.{last_kept};
ghost use Rattle.spec_store.specs.Store.{last_of as spec_last_of, store_of};
ghost use Rattle.raven_ports.specs.Faults.{Rose};
ghost use Rattle.raven_ports.specs.Plan.{one_later};

use crate::form::row_of;
use doc_store::{OpenFault, Store};
use doc_txn::Limits;
use raven_base::{NoMemory, Sequence, Shared};
use raven_ports::{Keeper, KeeperFault, KeptRow, KeptRows};
use raven_value::{Row, Rows};
use std::alloc::Global;
use thiserror::Error;

/// How many rows are loaded at a time.
const PAGE: u32 = 1024;

/// Why rows are not loaded.
#[derive(Clone, Copy, Debug, Drop, Error)]
pub enum LoadFault {
    /// The keeper failed, and its count of faults rose.
    #[error("the keeper failed")]
    Failed,

    /// A row is bad.
    #[error("the kept row with the etag {etag} is bad")]
    KeptBad {
        /// The etag of the first bad row.
        etag: u64,
    },

    /// It ran out of memory.
    #[error("no memory was found")]
    NoMemory,
}

impl From<NoMemory> for LoadFault {
    ghost from_gives = { λ _ fault. fault ≡ OutOfMemory };

    fn from(_lack: NoMemory) -> LoadFault {
        LoadFault::NoMemory
    }
}

// The etag of the last row, or 0.
fn last_of(rows: &[Shared<Row>]) -> u64
    ensures { result ≡ spec_last_of 0 rows.now }
{
    match rows.last() {
        Some(row) => row.get().etag,
        None => 0,
    }
}

// Whether the row may come after these, if its id is new.
fn has_place(rows: &Rows, row: &Row, max: u32) -> bool
    ensures { result ≡ spec_has_place max rows.now row.now }
{
    last_of(rows.as_slice()) < row.etag && rows.len() < max as usize
}

// Adds the row of a stored row. It returns the etag of the stored row if it is bad, and adds nothing then. Ids are not compared.
fn add_row(
    alloc: Global,
    rows: &mut Rows,
    kept: &KeptRow,
    max: u32,
) -> Result<Option<u64>, NoMemory>
    ensures { IfOk result (λ bad. (rows.new, bad) ≡ read_on max rows.old (kept.now ∷ [])) }
{
    let row = match row_of(alloc, kept) {
        Ok(row) => row,
        Err(OpenFault::KeptBad { etag }) => return Ok(Some(etag)),
        Err(OpenFault::NoMemory) => return Err(NoMemory),
    };
    if !has_place(rows, &row, max) {
        return Ok(Some(kept.etag));
    }
    rows.push(Shared::of(alloc, row)?)?;
    Ok(None)
}

// Adds the rows of stored rows up to the first bad one, whose etag it returns. Ids are not compared.
fn add_rows(
    alloc: Global,
    rows: &mut Rows,
    page: &[KeptRow],
    max: u32,
) -> Result<Option<u64>, NoMemory>
    ensures { IfOk result (λ bad. (rows.new, bad) ≡ read_on max rows.old page.now) }
{
    for kept in page {
        let bad = add_row(alloc, rows, kept, max)?;
        if bad.is_some() {
            return Ok(bad);
        }
    }
    Ok(None)
}

// These rows and their store, unless one of them has the id of an earlier one, or the stored row after them is bad.
fn opened(alloc: Global, rows: Rows, bad: Option<u64>) -> Result<(Rows, Store), LoadFault>
    requires few { length rows < 2 ^ 32 }
    ensures ok { IfOk result (λ r. judged rows bad ≡ Ok r.0) }
    ensures store { IfOk result (λ r. r.1 ≡ store_of r.0) }
    ensures sound { IfOk result (λ r. first_bad [] r.0 ≡ None) }
    ensures fault { IfErr result (λ fault. IsPageFault fault (judged rows bad)) }
{
    let store = match Store::open(alloc, &rows) {
        Ok(store) => store,
        Err(OpenFault::KeptBad { etag }) => return Err(LoadFault::KeptBad { etag }),
        Err(OpenFault::NoMemory) => return Err(LoadFault::NoMemory),
    };
    match bad {
        Some(etag) => Err(LoadFault::KeptBad { etag }),
        None => Ok((rows, store)),
    }
}

// The fault with which the keeper gave no rows after these, unless one of these is bad: then that is reported.
fn or_bad_row(alloc: Global, rows: Rows, fault: LoadFault) -> LoadFault
    requires few { length rows < 2 ^ 32 }
    ensures { (result ≡ fault) ⊎ IsPageFault result (judged rows None) }
{
    match opened(alloc, rows, None) {
        Err(LoadFault::KeptBad { etag }) => LoadFault::KeptBad { etag },
        _ => fault,
    }
}

// The etag of the last of these rows, or `after` if there are none.
fn last_etag(after: Option<u64>, page: &[KeptRow]) -> Option<u64>
    ensures { result ≡ last_kept after page.now }
{
    let mut last = after;
    for kept in page {
        last = Some(kept.etag);
    }
    last
}

// The next rows past an etag.
fn load_page<K: Keeper>(
    alloc: Global,
    keeper: &mut K,
    after: Option<u64>,
) -> Result<KeptRows, LoadFault>
    ensures page { IfOk result (IsPage (K.state keeper.old).held after) }
    ensures fault { IfErr result (λ fault. (max : ℕ) → IsCause max (K.state keeper.old).held fault) }
    ensures same { (K.state keeper.new).held ≡ (K.state keeper.old).held }
    ensures called { (K.state keeper.new).plan ≡ option_map one_later (K.state keeper.old).plan }
    ensures later { (K.state keeper.old).count ≤ (K.state keeper.new).count }
    ensures cause { IsErrOf result LoadFault.Failed → Rose (K.state keeper.old).count (K.state keeper.new).count }
{
    match keeper.load(alloc, after, PAGE) {
        Ok(page) => Ok(page),
        Err(KeeperFault::Failed) => Err(LoadFault::Failed),
        Err(KeeperFault::NoMemory) => Err(LoadFault::NoMemory),
    }
}

/// All rows that the keeper has, in order of etag, and the store of them.
///
/// A stored row is bad if `row_of` refuses it; if its etag is not past those of the rows before it; if one of these has its id,
/// without regard to case; or if there are `limits.rows` of them. Of several the first is named.
pub fn load<K: Keeper>(
    alloc: Global,
    keeper: &mut K,
    limits: &Limits,
) -> Result<(Rows, Store), LoadFault>
    ensures ok { IfOk result (λ r. IsLoaded limits.now.rows (K.state keeper.old).held (Ok r.0)) }
    ensures store { IfOk result (λ r. r.1 ≡ store_of r.0) }
    ensures sound { IfOk result (λ r. first_bad [] r.0 ≡ None) }
    ensures most { IfOk result (λ r. length r.0 ≤ limits.now.rows) }
    ensures fault { IfErr result (IsCause limits.now.rows (K.state keeper.old).held) }
    ensures same { (K.state keeper.new).held ≡ (K.state keeper.old).held }
    ensures called { AreCalls (K.state keeper.old).held (K.state keeper.old).plan (K.state keeper.new).plan }
    ensures later { (K.state keeper.old).count ≤ (K.state keeper.new).count }
    ensures cause { IsErrOf result LoadFault.Failed → Rose (K.state keeper.old).count (K.state keeper.new).count }
{
    let max = limits.rows;
    let mut rows = Sequence::new(alloc);
    let mut after = None;
    let mut page = match load_page(alloc, keeper, after) {
        Ok(first) => first,
        Err(fault) => return Err(fault),
    };
    while !page.is_empty() {
        let bad = add_rows(alloc, &mut rows, page.as_slice(), max)?;
        if bad.is_some() {
            return opened(alloc, rows, bad);
        }
        after = last_etag(after, page.as_slice());
        page = match load_page(alloc, keeper, after) {
            Ok(next) => next,
            Err(fault) => return Err(or_bad_row(alloc, rows, fault)),
        };
    }
    opened(alloc, rows, None)
}
