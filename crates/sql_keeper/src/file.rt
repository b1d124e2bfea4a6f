//! A database in a file. A new one gets the smallest pages, since a commit logs each page that it changes as a whole.
ghost use Rattle.std.specs.Prelude.{◌≡◌, IsTrue, IfOk, IsErrAnd, codes};
ghost use Rattle.sqlite_store.specs.Unopened.{files_of};
ghost use Rattle.sqlite_wal.specs.Reads.{OnlyReads};

use crate::fault::{database_fault, io_fault, path_fault, probe_fault, store_fault};
use crate::open_fault::OpenFault;
use sqlite::{Connection, Error, File, FileStore, Files, Options, Unknown};
use sqlite_disk::Disk;
use sqlite_pager::{PageSize, Pager};
use sqlite_pool::probe_blank;
use sqlite_std_file::OpenError as PathError;
use sqlite_store::Unopened;
use sqlite_wal::probe_page_size;
use std::alloc::{AllocFailed, Global};
use std::hash::{BuildHasher, RandomState};
use std::{fs, io};

/// The bytes of a page of a new file.
const PAGE: usize = 512;

/// What a database of SQLite begins with.
const MAGIC: &[u8; 16] = b"SQLite format 3\0";

// The library's own counts are for pages of 4,096 bytes. Small pages are given as many bytes of a transaction in memory, and half as
// many of log and of pages that were read.
fn options_for(page: Option<PageSize>, seed: u64) -> Options {
    match page {
        Some(size) if size.bytes() == PAGE => Options {
            cache_pages: 8_000,
            spill_pages: 16_000,
            checkpoint_frames: 4_000,
            seed,
        },
        _ => Options::new(seed),
    }
}

// Nothing is read or written yet. Here and below, what is left after an error is taken apart into its two files by the library, so
// that no proof goes through its parts to drop it.
fn blank<D: Disk + Drop>(
    alloc: Global,
    files: Files<D>,
    size: PageSize,
    seed: u64,
) -> Result<Unopened<D>, OpenFault>
    ensures { IfOk result (λ it. files_of it ≡ (files.log, files.db)) }
{
    match Pager::new(alloc, files, size, options_for(Some(size), seed)) {
        Ok(pager) => match Unopened::new(alloc, pager, &[]) {
            Ok(fresh) => Ok(fresh),
            Err(AllocFailed { value }) => {
                drop(value.close());
                Err(OpenFault::NoMemory)
            }
        },
        Err(AllocFailed { value: _files }) => Err(OpenFault::NoMemory),
    }
}

// Makes a database without tables. A crash leaves none, one that the next opening goes on with, or this one.
fn make<D: Disk + Drop>(
    alloc: Global,
    files: Files<D>,
    size: PageSize,
    seed: u64,
) -> Result<Connection<FileStore<D>>, OpenFault>
    requires log { IsTrue (D.Disk.is_usable files.log) }
    requires db { IsTrue (D.Disk.is_usable files.db) }
{
    let fresh = blank(alloc, files, size, seed)?;
    match fresh.create() {
        Ok(store) => match Connection::over(alloc, store) {
            Ok(conn) => Ok(conn),
            Err((error, store)) => {
                drop(store.close());
                Err(database_fault(error))
            }
        },
        Err((error, fresh)) => {
            drop(fresh.close());
            Err(store_fault(error))
        }
    }
}

// Whether the file begins as a database does. The library refuses other files as it does damaged ones.
fn begins_as_database<D: Disk>(db: &mut D) -> io::Result<bool>
    requires { IsTrue (D.Disk.is_usable db.old) }
    ensures { OnlyReads D.Disk db.old db.new }
{
    let mut head = [0; 16];
    if db.len()? < head.len() {
        return Ok(false);
    }
    db.read_at(0, &mut head)?;
    Ok(head == *MAGIC)
}

// Opens what is there, with the pages that it has.
fn reopen<D: Disk + Drop>(
    alloc: Global,
    mut files: Files<D>,
    seed: u64,
) -> Result<Connection<FileStore<D>>, OpenFault>
    requires log { IsTrue (D.Disk.is_usable files.log) }
    requires db { IsTrue (D.Disk.is_usable files.db) }
{
    let page = match probe_page_size(&mut files) {
        Ok(page) => page,
        Err(error) => return Err(io_fault(error)),
    };
    let begins = match begins_as_database(&mut files.db) {
        Ok(begins) => begins,
        Err(error) => return Err(io_fault(error)),
    };
    match Connection::open_files(alloc, files, options_for(page, seed)) {
        Ok(conn) => Ok(conn),
        Err((error, left)) => {
            drop(left.into_files());
            Err(refusal_of(error, begins))
        }
    }
}

fn refusal_of(error: Error, begins: bool) -> OpenFault {
    match database_fault(error) {
        OpenFault::Unreadable if !begins => OpenFault::NotADatabase,
        fault => fault,
    }
}

fn open_with<D: Disk + Drop>(
    alloc: Global,
    mut files: Files<D>,
    seed: u64,
) -> Result<Connection<FileStore<D>>, OpenFault>
    requires log { IsTrue (D.Disk.is_usable files.log) }
    requires db { IsTrue (D.Disk.is_usable files.db) }
{
    let size = PageSize::new(PAGE).unwrap();
    match probe_blank(alloc, &mut files, size, false) {
        Ok(true) => make(alloc, files, size, seed),
        Ok(false) => reopen(alloc, files, seed),
        Err(error) => Err(probe_fault(error)),
    }
}

fn is_folder(rt: &HostRuntime, path: &str) -> bool {
    match fs::metadata(rt, path) {
        Ok(found) => found.is_dir(),
        Err(_) => false,
    }
}

// A folder is told from what else is no regular file.
fn path_refusal(rt: &HostRuntime, path: &str, error: PathError) -> OpenFault {
    match path_fault(error) {
        OpenFault::NotRegular if is_folder(rt, path) => OpenFault::Folder,
        fault => fault,
    }
}

/// The database in the file at a path, and one without tables if the file is missing or empty.
pub fn open_file(rt: &HostRuntime, path: &str) -> Result<Connection<FileStore<File>>, OpenFault>
    ensures { path.now ≡ codes ":memory:" → IsErrAnd result (λ e. e ≡ OpenFault.NotAPath) }
{
    if path == ":memory:" || path.starts_with("file:") {
        return Err(OpenFault::NotAPath);
    }
    let seed = match RandomState::new(rt) {
        Ok(state) => state.hash_one(&0u8),
        Err(error) => return Err(io_fault(error)),
    };
    match sqlite_std_file::open(rt, path, Unknown) {
        Ok(files) => open_with(rt.alloc(), files, seed),
        Err(error) => Err(path_refusal(rt, path, error)),
    }
}
