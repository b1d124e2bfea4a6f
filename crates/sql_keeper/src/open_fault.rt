//! Why a file was not opened.
ghost use Rattle.std.specs.Prelude.{◌≡◌, ◌↔◌};

use raven_ports::KeeperFault;
use std::io;
use thiserror::Error;

/// Why a file was not opened. It was left as it was; if there was none, an empty one may have been made.
#[derive(Clone, Copy, Debug, Error)]
pub enum OpenFault {
    /// Out of memory.
    #[error("out of memory")]
    NoMemory,

    /// A folder of the path is missing, or is no folder.
    #[error("no such folder")]
    NoFolder,

    /// The file or its log may not be read and written, or may not be made, or a folder of the path may not be entered.
    #[error("no permission")]
    NoPermission,

    /// The path is that of a folder.
    #[error("it is a folder")]
    Folder,

    /// The file or its log is no regular file, or has a second name: a device, a pipe, a link to nothing, a hard link.
    #[error("it or its log is no regular file, or has a second name")]
    NotRegular,

    /// The file is open elsewhere, in this program or another.
    #[error("it is in use")]
    InUse,

    /// A rollback journal is beside the file, which only SQLite itself can play back, or something else that has its name.
    #[error("it has a rollback journal: open it with sqlite3 first")]
    Journal,

    /// The file does not begin as a database of SQLite does.
    #[error("it is no database of SQLite")]
    NotADatabase,

    /// The database library refuses what the file holds: it is damaged, or of a kind that the library does not read.
    #[error("it is a database of SQLite that is damaged or of a kind that is not read")]
    Unreadable,

    /// The file is a database of SQLite, and has something else than the table of a keeper.
    #[error("it is a database of another program")]
    Foreign,

    /// The path is `:memory:` or begins with `file:`, which to SQLite are no paths.
    #[error("to SQLite this is no path: write ./ before it")]
    NotAPath,

    /// A read or a write of the opened file failed, or the disk is full. The library does not report which.
    #[error("a read or a write failed, or the disk is full")]
    Disk,

    /// The system refused a call for none of these causes, and says this of it.
    #[error("{0}")]
    System(io::Error),
}

impl OpenFault {
    /// The same as the fault of a keeper: out of memory stays that.
    pub fn as_keeper(self) -> KeeperFault
        ensures { (result ≡ KeeperFault.NoMemory) ↔ (self ≡ OpenFault.NoMemory) }
    {
        match self {
            OpenFault::NoMemory => KeeperFault::NoMemory,
            _ => KeeperFault::Failed,
        }
    }
}
