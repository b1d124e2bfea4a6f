//! What the errors of the database library and of the system are to a keeper, and to one who opens a file.
//!
//! Clauses say of each that out of memory, and nothing else, stays that.
ghost use Rattle.std.specs.Prelude.{◌≡◌, ◌↔◌};
ghost use Rattle.std.specs.IoError.{error_kind};

use crate::open_fault::OpenFault;
use raven_ports::KeeperFault;
use sqlite::{Error, ErrorCode};
use sqlite_std_file::OpenError as PathError;
use sqlite_store::OpenError;
use std::io;
use std::io::ErrorKind;

pub fn fault_of(error: Error) -> KeeperFault
    ensures { (result ≡ KeeperFault.NoMemory) ↔ (error ≡ Error.SqliteFailure ErrorCode.OutOfMemory) }
{
    match error {
        Error::SqliteFailure(ErrorCode::OutOfMemory) => KeeperFault::NoMemory,
        _ => KeeperFault::Failed,
    }
}

/// Of a call on an opened file.
pub fn io_fault(error: io::Error) -> OpenFault
    ensures { (result ≡ OpenFault.NoMemory) ↔ (error_kind error ≡ ErrorKind.OutOfMemory) }
{
    match error.kind() {
        ErrorKind::OutOfMemory => OpenFault::NoMemory,
        _ => OpenFault::System(error),
    }
}

// Of a call that takes the path. The library itself gives `Unsupported` for what it does not open; the system gives it with a number.
fn name_fault(error: io::Error) -> OpenFault
    ensures { (result ≡ OpenFault.NoMemory) ↔ (error_kind error ≡ ErrorKind.OutOfMemory) }
{
    match error.kind() {
        ErrorKind::NotFound | ErrorKind::NotADirectory => OpenFault::NoFolder,
        ErrorKind::PermissionDenied => OpenFault::NoPermission,
        ErrorKind::IsADirectory => OpenFault::Folder,
        ErrorKind::Unsupported if error.raw_os_error().is_none() => OpenFault::NotRegular,
        _ => io_fault(error),
    }
}

/// Of opening the file and its log.
pub fn path_fault(error: PathError) -> OpenFault {
    match error {
        PathError::OutOfMemory => OpenFault::NoMemory,
        PathError::Busy => OpenFault::InUse,
        PathError::HotJournal => OpenFault::Journal,
        PathError::Io(error) => name_fault(error),
    }
}

/// Of looking if there is a database yet.
pub fn probe_fault(error: sqlite_wal::Error) -> OpenFault {
    match error {
        sqlite_wal::Error::OutOfMemory => OpenFault::NoMemory,
        sqlite_wal::Error::Io(error) => io_fault(error),
        _ => OpenFault::Unreadable,
    }
}

/// Of making a database.
pub fn store_fault(error: OpenError) -> OpenFault
    ensures { (result ≡ OpenFault.NoMemory) ↔ (error ≡ OpenError.OutOfMemory) }
{
    match error {
        OpenError::OutOfMemory => OpenFault::NoMemory,
        OpenError::Io | OpenError::Full => OpenFault::Disk,
        OpenError::Refused => OpenFault::Unreadable,
    }
}

/// Of opening a database, and of the first statements on it.
pub fn database_fault(error: Error) -> OpenFault
    ensures { (result ≡ OpenFault.NoMemory) ↔ (error ≡ Error.SqliteFailure ErrorCode.OutOfMemory) }
{
    match error {
        Error::SqliteFailure(ErrorCode::OutOfMemory) => OpenFault::NoMemory,
        Error::SqliteFailure(
            ErrorCode::SystemIoFailure | ErrorCode::DiskFull | ErrorCode::Closed,
        ) => OpenFault::Disk,
        _ => OpenFault::Unreadable,
    }
}
