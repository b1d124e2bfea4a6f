//! A keeper in a database of SQLite, in a file or in memory.
ghost use Rattle.std.specs.Prelude.{◌≡◌, ◌≤◌, IfOk, IsErrAnd, None, codes, length};
ghost use Rattle.spec_data.specs.Kept.{EtagsRise, is_past as spec_is_past};
ghost use Rattle.raven_ports.specs.Faults.{Rose};

use crate::fault::{database_fault, fault_of};
use crate::file::open_file;
use crate::open_fault::OpenFault;
use raven_base::{NoMemory, Sequence};
use raven_ports::{Keeper, KeeperFault, KeptRow, KeptRows};
use raven_value::Text;
use sqlite::types::ValueRef;
use sqlite::{
    Alter, Connection, Error, ErrorCode, File, FileStore, MemStore, Row, Rows, Statement,
    Transaction, params,
};
use std::alloc::{AllocError, Global};

/// The one table: a row for each id, under the id with its ASCII letters in lower case. The etag is the number of the row, so
/// that there is one index beside the table.
const TABLE: &str =
    "CREATE TABLE kept (etag INTEGER PRIMARY KEY, key TEXT NOT NULL UNIQUE, id TEXT NOT NULL, collection TEXT NOT NULL, body TEXT, changed INTEGER NOT NULL) STRICT";

/// The table of older files, which has the same columns and two indexes. The same statements serve it.
const OLD_TABLE: &str =
    "CREATE TABLE kept (key TEXT NOT NULL PRIMARY KEY, etag INTEGER NOT NULL UNIQUE, id TEXT NOT NULL, collection TEXT NOT NULL, body TEXT, changed INTEGER NOT NULL) STRICT";

/// What the database has, and the texts that made it; the indexes of the table have none.
const OBJECTS: &str = "SELECT sql FROM sqlite_schema WHERE sql IS NOT NULL";

const LOAD: &str =
    "SELECT etag, id, collection, body, changed FROM kept WHERE etag >= ?1 ORDER BY etag LIMIT ?2";

const PUT: &str =
    "INSERT INTO kept (key, etag, id, collection, body, changed) VALUES (?1, ?2, ?3, ?4, ?5, ?6) ON CONFLICT (key) DO UPDATE SET etag = excluded.etag, id = excluded.id, collection = excluded.collection, body = excluded.body, changed = excluded.changed";

/// Removes the tombstones up to an etag, which have no text.
const CLEAN: &str = "DELETE FROM kept WHERE etag <= ?1 AND body IS NULL";

// The statements of a keeper, which are compiled once.
#[derive(Drop)]
struct Statements {
    load: Statement,
    put: Statement,
    clean: Statement,
}

/// A keeper in a database of SQLite, which it has for itself. It does not report what it holds.
///
/// Each call that is refused is a fault, unless it ran out of memory. So is a load that meets a row whose columns do not fit a
/// stored row, or whose etag is not past the one before it.
pub struct SqlKeeper<S: Alter + Drop> {
    alloc: Global,
    conn: Connection<S>,
    statements: Statements,
    faults: u64,
}

// By hand, so that a proof about what drops a keeper need not go through the parts of a connection.
impl<S: Alter + Drop> Drop for SqlKeeper<S> {
    fn drop(self) {
        let SqlKeeper {
            alloc: _,
            conn: _conn,
            statements: _statements,
            faults: _,
        } = self;
    }
}

// Whether the database has one of the two tables and nothing else, or nothing at all.
fn is_ours(objects: &[Row]) -> Result<bool, Error> {
    let [table] = objects else {
        return Ok(objects.is_empty());
    };
    let text: String = table.get(0)?;
    Ok(text.as_str() == TABLE || text.as_str() == OLD_TABLE)
}

// Makes the table in a database that has nothing. Returns false, and leaves the database as it is, if it has anything but just one
// of the tables.
fn make_table<S: Alter>(conn: &mut Connection<S>) -> Result<bool, Error> {
    let objects = conn.query_all(OBJECTS, &[])?;
    if !is_ours(objects.as_slice())? {
        return Ok(false);
    }
    if objects.is_empty() {
        conn.execute(TABLE, &[])?;
    }
    Ok(true)
}

// None if the database is of another program.
fn prepare<S: Alter>(conn: &mut Connection<S>) -> Result<Option<Statements>, Error> {
    if !make_table(conn)? {
        return Ok(None);
    }
    let load = conn.prepare(LOAD)?;
    let put = conn.prepare(PUT)?;
    let clean = conn.prepare(CLEAN)?;
    Ok(Some(Statements { load, put, clean }))
}

// The least etag that is past this one. Etags of the database have 63 bits.
fn least_past(after: Option<u64>) -> Option<i64> {
    let Some(etag) = after else {
        return Some(i64::MIN);
    };
    match i64::try_from(etag) {
        Ok(last) => last.checked_add(1),
        Err(_) => None,
    }
}

fn begin<'conn, S: Alter>(
    conn: &'conn mut Connection<S>,
    load: &Statement,
    least: i64,
    max: u32,
) -> Result<Rows<'conn, S>, Error> {
    load.query(conn, params![least, max])
}

fn text_at(row: &Row, at: usize) -> Result<Text, Error> {
    Text::of_string(row.get(at)?).map_err(|_| Error::SqliteFailure(ErrorCode::OutOfMemory))
}

fn body_of(row: &Row) -> Result<Option<Text>, Error> {
    match row.get_ref(3)? {
        ValueRef::Null => Ok(None),
        _ => Ok(Some(text_at(row, 3)?)),
    }
}

fn kept_of(row: &Row) -> Result<KeptRow, Error> {
    Ok(KeptRow {
        etag: row.get(0)?,
        id: text_at(row, 1)?,
        collection: text_at(row, 2)?,
        body: body_of(row)?,
        changed: row.get(4)?,
    })
}

fn next_kept<S: Alter>(rows: &mut Rows<'_, S>) -> Result<Option<KeptRow>, Error> {
    rows.advance()?;
    match rows.get() {
        Some(row) => Ok(Some(kept_of(row)?)),
        None => Ok(None),
    }
}

fn is_past(last: Option<u64>, kept: &KeptRow) -> bool
    ensures { result ≡ spec_is_past last kept.now }
{
    match last {
        Some(etag) => etag < kept.etag,
        None => true,
    }
}

// The next rows of the answer, whose etags are to rise from past this one.
fn take<S: Alter>(
    alloc: Global,
    rows: &mut Rows<'_, S>,
    after: Option<u64>,
    max: u32,
) -> Result<KeptRows, KeeperFault>
    ensures rising { IfOk result (EtagsRise after) }
    ensures most { IfOk result (λ found. length found ≤ max) }
{
    let mut found = Sequence::new(alloc);
    let mut last = after;
    for _ in 0..max {
        let kept = match next_kept(rows) {
            Ok(Some(kept)) => kept,
            Ok(None) => return Ok(found),
            Err(error) => return Err(fault_of(error)),
        };
        if !is_past(last, &kept) {
            return Err(KeeperFault::Failed);
        }
        last = Some(kept.etag);
        if let Err(NoMemory) = found.push(kept) {
            return Err(KeeperFault::NoMemory);
        }
    }
    Ok(found)
}

fn load_rows<S: Alter>(
    alloc: Global,
    conn: &mut Connection<S>,
    load: &Statement,
    after: Option<u64>,
    max: u32,
) -> Result<KeptRows, KeeperFault>
    ensures rising { IfOk result (EtagsRise after) }
    ensures most { IfOk result (λ found. length found ≤ max) }
{
    let Some(least) = least_past(after) else {
        return Ok(Sequence::new(alloc));
    };
    match begin(conn, load, least, max) {
        Ok(mut rows) => take(alloc, &mut rows, after, max),
        Err(error) => Err(fault_of(error)),
    }
}

// A number as the database has it. If it does not fit, the error names the column.
fn number(value: u64, column: usize) -> Result<i64, Error> {
    i64::try_from(value).map_err(|_| Error::IntegralValueOutOfRange(column))
}

fn put_row<S: Alter>(
    alloc: Global,
    transaction: &mut Transaction<'_, S>,
    put: &Statement,
    row: &KeptRow,
) -> Result<(), Error> {
    let key = row.id.as_str().to_ascii_lowercase(alloc)?;
    let etag = number(row.etag, 1)?;
    let changed = number(row.changed, 5)?;
    let body = match &row.body {
        Some(text) => Some(text.as_str()),
        None => None,
    };
    transaction.execute_prepared(
        put,
        params![
            &key,
            etag,
            row.id.as_str(),
            row.collection.as_str(),
            body,
            changed
        ],
    )?;
    Ok(())
}

// All rows, or none: a transaction that is dropped leaves nothing.
fn put_all<S: Alter>(
    alloc: Global,
    conn: &mut Connection<S>,
    put: &Statement,
    rows: &KeptRows,
) -> Result<(), Error> {
    if !conn.is_autocommit() {
        return Err(Error::SqliteFailure(ErrorCode::TransactionState));
    }
    let mut transaction = conn.transaction();
    for row in rows.as_slice() {
        put_row(alloc, &mut transaction, put, row)?;
    }
    transaction.commit()
}

// Removes the tombstones up to an etag. All of them, or none: a transaction that is dropped leaves nothing.
fn remove_tombstones<S: Alter>(
    conn: &mut Connection<S>,
    clean: &Statement,
    upto: u64,
) -> Result<(), Error> {
    if !conn.is_autocommit() {
        return Err(Error::SqliteFailure(ErrorCode::TransactionState));
    }
    // No row has an etag past this, since those of the database have 63 bits.
    let most = i64::try_from(upto).unwrap_or(i64::MAX);
    let mut transaction = conn.transaction();
    transaction.execute_prepared(clean, params![most])?;
    transaction.commit()
}

impl<S: Alter + Drop> SqlKeeper<S> {
    // A keeper in this database, which has the table or nothing.
    fn over(alloc: Global, conn: Connection<S>) -> Result<SqlKeeper<S>, OpenFault> {
        let mut conn = conn;
        match prepare(&mut conn) {
            Ok(Some(statements)) => Ok(SqlKeeper {
                alloc,
                conn,
                statements,
                faults: 0,
            }),
            Ok(None) => Err(OpenFault::Foreign),
            Err(error) => Err(database_fault(error)),
        }
    }

    // Counts a fault, unless it is out of memory.
    fn counted(&mut self, fault: KeeperFault) -> KeeperFault
        ensures same { result ≡ fault }
        ensures later { self.old.faults ≤ self.new.faults }
        ensures cause { result ≡ KeeperFault.Failed → Rose self.old.faults self.new.faults }
    {
        if fault == KeeperFault::Failed {
            self.faults = self.faults.saturating_add(1);
        }
        fault
    }
}

impl SqlKeeper<MemStore> {
    /// A keeper in memory, without rows.
    pub fn in_memory(alloc: Global) -> Result<SqlKeeper<MemStore>, KeeperFault> {
        match Connection::open_in_memory(alloc) {
            Ok(conn) => SqlKeeper::over(alloc, conn).map_err(OpenFault::as_keeper),
            Err(AllocError) => Err(KeeperFault::NoMemory),
        }
    }
}

impl SqlKeeper<FileStore<File>> {
    /// A keeper in the file at a path.
    pub(crate) fn in_file(
        rt: &HostRuntime,
        path: &str,
    ) -> Result<SqlKeeper<FileStore<File>>, OpenFault>
        ensures { path.now ≡ codes ":memory:" → IsErrAnd result (λ e. e ≡ OpenFault.NotAPath) }
    {
        match open_file(rt, path) {
            Ok(conn) => SqlKeeper::over(rt.alloc(), conn),
            Err(fault) => Err(fault),
        }
    }

    /// Copies the log into the file, and closes both.
    pub(crate) fn close(self) -> Result<(), KeeperFault> {
        let SqlKeeper {
            alloc: _,
            conn,
            statements: _statements,
            faults: _,
        } = self;
        conn.close().map_err(fault_of)
    }
}

impl<S: Alter + Drop> Keeper for SqlKeeper<S> {
    ghost state = { λ k. record { held = None; plan = None; count = k.faults } };

    fn faults(&self) -> u64 {
        self.faults
    }

    fn load(
        &mut self,
        alloc: Global,
        after: Option<u64>,
        max: u32,
    ) -> Result<KeptRows, KeeperFault> {
        match load_rows(alloc, &mut self.conn, &self.statements.load, after, max) {
            Ok(rows) => Ok(rows),
            Err(fault) => Err(self.counted(fault)),
        }
    }

    fn commit(&mut self, rows: &KeptRows) -> Result<(), KeeperFault> {
        match put_all(self.alloc, &mut self.conn, &self.statements.put, rows) {
            Ok(()) => Ok(()),
            Err(error) => Err(self.counted(fault_of(error))),
        }
    }

    fn clean(&mut self, upto: u64) -> Result<(), KeeperFault> {
        match remove_tombstones(&mut self.conn, &self.statements.clean, upto) {
            Ok(()) => Ok(()),
            Err(error) => Err(self.counted(fault_of(error))),
        }
    }
}
