//! A keeper in a file.
ghost use Rattle.std.specs.Prelude.{◌≡◌, IsErrAnd, codes};

use crate::keeper::SqlKeeper;
use crate::open_fault::OpenFault;
use raven_ports::{Keeper, KeeperFault, KeptRows};
use sqlite::{File, FileStore};
use std::alloc::Global;
use std::marker::Model;

/// A keeper in a file of SQLite, which it has for itself, with the log next to it, whose name ends in `-wal`. It does not report what it holds.
///
/// Its type says nothing of the database below, so no proof about a program that has one goes through the parts of that.
pub struct FileKeeper {
    keeper: SqlKeeper<FileStore<File>>,
}

// Opaque drop: see raven_base.
impl Drop for FileKeeper {
    fn drop(self) {
        let FileKeeper { keeper: _keeper } = self;
    }
}

impl Model for FileKeeper {
    ghost use Rattle.std.specs.Prelude.{ℕ};

    ghost Value = { ℕ };

    ghost view = { λ k. k.keeper.faults };
}

impl FileKeeper {
    /// A keeper in the file at a path, which is made if there is none.
    ///
    /// It supposes that after a loss of power each byte that was being written over is the old one or the new one. So most commits
    /// sync the log once.
    ///
    /// It is refused for the first of these causes that is met: the path, the file and its log by what the system says of them, what
    /// the file holds, and what the database has. A file that holds anything else than the table of a keeper is left as it was.
    pub fn open(rt: &HostRuntime, path: &str) -> Result<FileKeeper, OpenFault>
        ensures { path.now ≡ codes ":memory:" → IsErrAnd result (λ e. e ≡ OpenFault.NotAPath) }
    {
        match SqlKeeper::in_file(rt, path) {
            Ok(keeper) => Ok(FileKeeper { keeper }),
            Err(fault) => Err(fault),
        }
    }

    /// Copies the log into the file, and closes both. A keeper that is dropped, and one for which this fails, leaves the log next to
    /// the file, with the last commits; it is read again when the file is opened.
    pub fn close(self) -> Result<(), KeeperFault> {
        let FileKeeper { keeper } = self;
        keeper.close()
    }
}

impl Keeper for FileKeeper {
    ghost use Rattle.std.specs.Prelude.{None};

    ghost state = { λ k. record { held = None; plan = None; count = k } };

    fn faults(&self) -> u64 {
        self.keeper.faults()
    }

    fn load(
        &mut self,
        alloc: Global,
        after: Option<u64>,
        max: u32,
    ) -> Result<KeptRows, KeeperFault> {
        self.keeper.load(alloc, after, max)
    }

    fn commit(&mut self, rows: &KeptRows) -> Result<(), KeeperFault> {
        self.keeper.commit(rows)
    }

    fn clean(&mut self, upto: u64) -> Result<(), KeeperFault> {
        self.keeper.clean(upto)
    }
}
