//! A log of rows.
ghost use Rattle.std.specs.Prelude.{◌≡◌, ◌+◌, ◌≤◌, List, ℕ, None, filter, length, max, not, IfOk, OnErr, OnOk};
ghost use Rattle.std.specs.BTreeMap.{get};
ghost use Rattle.spec_data.specs.Folding.{folded};
ghost use Rattle.spec_data.specs.Kept.{EtagsRise, is_past, keep_all, kept_after, last_kept};
ghost use Rattle.spec_store.specs.Cleaning.{cleared, is_old_mark as spec_is_old_mark};
ghost use Rattle.raven_ports.specs.Logged.{IsLog, held_in, id_cmp, is_below, last_of_id};

use crate::keeper::{KeptRow, KeptRows};
use raven_base::{NoMemory, Sequence};
use raven_value::Folded;
use std::alloc::Global;
use std::collections::BTreeMap;

/// Rows in order of etag, of which later ones replace earlier ones of their ids.
///
/// Rows that were replaced stay until it is compacted, which is once it would have more than twice the rows that the last
/// compaction left, or once the documents added since then are larger than those that it left, with 1 KiB more for each row. So a row
/// more takes time that does not grow with their number, but for compactions; over many rows these add to each of them the logarithm
/// of the number.
#[derive(Drop)]
pub(crate) struct Log {
    rows: Vec<KeptRow>,
    /// How many rows there were after the last compaction.
    compacted: usize,
    /// How many bytes their documents had.
    compacted_bytes: u64,
    /// How many bytes the documents added since then have.
    added_bytes: u64,
}

/// How many bytes of documents may be added for each row beside as many as there were.
const BYTES_BESIDE: u64 = 1024;

/// How many bytes the documents of these rows have, if that fits 64 bits.
fn bytes_in(rows: &[KeptRow]) -> u64 {
    let mut bytes: u64 = 0;
    for row in rows {
        if let Some(body) = &row.body {
            bytes = bytes.saturating_add(body.as_str().len() as u64);
        }
    }
    bytes
}

/// The etag of the last row of each id.
fn last_etags(alloc: Global, rows: &[KeptRow]) -> Result<BTreeMap<Folded, u64>, NoMemory>
    ensures { IfOk result (λ etags. (q : List ℕ) → get id_cmp etags q ≡ last_of_id None (folded q) rows.now) }
{
    let mut etags = BTreeMap::new(alloc);
    for row in rows {
        etags.insert(Folded(row.id.clone()?), row.etag)?;
    }
    Ok(etags)
}

/// Whether the etag of a row is below the one that is given for its id.
fn is_replaced(etags: &BTreeMap<Folded, u64>, row: &KeptRow) -> Result<bool, NoMemory>
    ensures { IfOk result (λ replaced. replaced ≡ is_below (get id_cmp etags.now row.now.id) row.now) }
{
    let id = Folded(row.id.clone()?);
    match etags.get(&id) {
        Some(etag) => Ok(row.etag < *etag),
        None => Ok(false),
    }
}

/// Copies of the rows whose etags are not below those that are given for their ids.
fn unreplaced(
    alloc: Global,
    rows: &[KeptRow],
    etags: &BTreeMap<Folded, u64>,
) -> Result<Vec<KeptRow>, NoMemory>
    ensures { IfOk result (λ left. left.items ≡ filter (λ x. not (is_below (get id_cmp etags.now x.id) x)) rows.now) }
{
    let mut left = Vec::with_capacity(alloc, rows.len())?;
    for row in rows {
        if !is_replaced(etags, row)? {
            left.push(row.clone()?)?;
        }
    }
    Ok(left)
}

/// Whether a row is a tombstone with an etag of at most this.
fn is_old_mark(upto: u64, row: &KeptRow) -> bool
    ensures { result ≡ spec_is_old_mark upto row.now }
{
    row.body.is_none() && row.etag <= upto
}

/// Copies of the rows but for the tombstones up to an etag.
fn unmarked(alloc: Global, rows: &[KeptRow], upto: u64) -> Result<Vec<KeptRow>, NoMemory>
    ensures { IfOk result (λ left. left.items ≡ cleared upto rows.now) }
{
    let mut left = Vec::with_capacity(alloc, rows.len())?;
    for row in rows {
        if !is_old_mark(upto, row) {
            left.push(row.clone()?)?;
        }
    }
    Ok(left)
}

/// The rows past an etag; without one, all of them.
fn rows_past(rows: &[KeptRow], after: Option<u64>) -> &[KeptRow]
    requires { EtagsRise None rows.now }
    ensures { result.now ≡ filter (is_past after) rows.now }
{
    match after {
        None => rows,
        Some(etag) => {
            let first = rows.partition_point(|row| row.etag <= etag);
            &rows[first..]
        }
    }
}

/// Copies of the first rows past an etag, at most `max`.
fn first_past(
    alloc: Global,
    rows: &[KeptRow],
    after: Option<u64>,
    max: usize,
) -> Result<KeptRows, NoMemory>
    requires { EtagsRise None rows.now }
    ensures { IfOk result (λ found. found ≡ kept_after after max rows.now) }
{
    let past = rows_past(rows, after);
    let count = past.len().min(max);
    KeptRows::copied(alloc, &past[..count])
}

impl Log {
    /// The log of these rows, none of which replaces another.
    pub(crate) fn of(rows: KeptRows) -> Log
        requires { EtagsRise None rows }
        ensures rows { result.rows.items ≡ rows }
        ensures compacted { result.compacted ≡ length rows }
    {
        let rows = rows.into_vec();
        let compacted = rows.len();
        let compacted_bytes = bytes_in(&rows);
        Log {
            rows,
            compacted,
            compacted_bytes,
            added_bytes: 0,
        }
    }

    /// Copies of the rows that it holds.
    pub(crate) fn copies(&self, alloc: Global) -> Result<Vec<KeptRow>, NoMemory>
        requires { IsLog self.now.compacted self.now.rows.items }
        ensures { IfOk result (λ copies. copies.items ≡ held_in self.now.compacted self.now.rows.items) }
    {
        let etags = last_etags(alloc, &self.rows[self.compacted..])?;
        unreplaced(alloc, &self.rows, &etags)
    }

    /// Drops the rows that were replaced.
    fn compact(&mut self) -> Result<(), NoMemory>
        requires { IsLog self.old.compacted self.old.rows.items }
        ensures rows { OnOk result (self.new.rows.items ≡ held_in self.old.compacted self.old.rows.items) }
        ensures compacted { OnOk result (self.new.compacted ≡ length self.new.rows.items) }
        ensures rising { EtagsRise None self.new.rows.items }
        ensures err { OnErr result (self.new ≡ self.old) }
    {
        if self.compacted == self.rows.len() {
            return Ok(());
        }
        let rows = self.copies(*self.rows.allocator())?;
        self.compacted = rows.len();
        self.compacted_bytes = bytes_in(&rows);
        self.added_bytes = 0;
        self.rows = rows;
        Ok(())
    }

    /// Whether the documents added since the last compaction are so large that the next one is due.
    fn is_heavy(&self) -> bool {
        let beside = (self.compacted as u64).saturating_mul(BYTES_BESIDE);
        self.added_bytes > self.compacted_bytes.saturating_add(beside)
    }

    /// Drops the rows that were replaced, if with `more` rows there were more than twice those that were left last, or if the documents
    /// added since then are large.
    fn compact_before(&mut self, more: usize) -> Result<(), NoMemory>
        requires { IsLog self.old.compacted self.old.rows.items }
        ensures held { held_in self.new.compacted self.new.rows.items ≡ held_in self.old.compacted self.old.rows.items }
        ensures log { IsLog self.new.compacted self.new.rows.items }
        ensures size { OnOk result (length self.new.rows.items + more ≤ self.new.compacted + max self.new.compacted more) }
    {
        let many = self.compacted.saturating_sub(more) < self.rows.len() - self.compacted;
        if many || self.is_heavy() {
            self.compact()?;
        }
        Ok(())
    }

    /// Adds rows: all of them, or none. Their etags rise, and are past those that it has.
    pub(crate) fn add(&mut self, rows: &[KeptRow]) -> Result<(), NoMemory>
        requires log { IsLog self.old.compacted self.old.rows.items }
        requires past { EtagsRise (last_kept None (held_in self.old.compacted self.old.rows.items)) rows.now }
        ensures log { IsLog self.new.compacted self.new.rows.items }
        ensures ok { OnOk result (held_in self.new.compacted self.new.rows.items ≡ keep_all (held_in self.old.compacted self.old.rows.items) rows.now) }
        ensures err { OnErr result (held_in self.new.compacted self.new.rows.items ≡ held_in self.old.compacted self.old.rows.items) }
        ensures size { OnOk result (length self.new.rows.items ≤ self.new.compacted + max self.new.compacted (length rows.now)) }
    {
        self.compact_before(rows.len())?;
        self.rows.extend_from_slice(rows)?;
        self.added_bytes = self.added_bytes.saturating_add(bytes_in(rows));
        Ok(())
    }

    /// Drops the tombstones up to an etag, and the rows that were replaced.
    pub(crate) fn clean(&mut self, upto: u64) -> Result<(), NoMemory>
        requires { IsLog self.old.compacted self.old.rows.items }
        ensures log { IsLog self.new.compacted self.new.rows.items }
        ensures ok { OnOk result (held_in self.new.compacted self.new.rows.items ≡ cleared upto (held_in self.old.compacted self.old.rows.items)) }
        ensures err { OnErr result (held_in self.new.compacted self.new.rows.items ≡ held_in self.old.compacted self.old.rows.items) }
    {
        self.compact()?;
        let rows = unmarked(*self.rows.allocator(), &self.rows, upto)?;
        self.compacted = rows.len();
        self.compacted_bytes = bytes_in(&rows);
        self.rows = rows;
        Ok(())
    }

    /// Copies of the first rows past an etag that it holds, at most `max`.
    ///
    /// It is compacted first, if there were rows since it last was. So further loads search the first row and copy.
    pub(crate) fn load(
        &mut self,
        alloc: Global,
        after: Option<u64>,
        max: usize,
    ) -> Result<KeptRows, NoMemory>
        requires { IsLog self.old.compacted self.old.rows.items }
        ensures rows { IfOk result (λ found. found ≡ kept_after after max (held_in self.old.compacted self.old.rows.items)) }
        ensures rising { IfOk result (λ found. EtagsRise after found) }
        ensures order { EtagsRise None (held_in self.old.compacted self.old.rows.items) }
        ensures same { held_in self.new.compacted self.new.rows.items ≡ held_in self.old.compacted self.old.rows.items }
        ensures log { IsLog self.new.compacted self.new.rows.items }
    {
        self.compact()?;
        first_past(alloc, &self.rows, after, max)
    }
}
