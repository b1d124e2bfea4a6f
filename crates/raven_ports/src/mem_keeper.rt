//! A keeper in memory, whose calls fail by a list.
ghost use Rattle.std.specs.Prelude.{◌≡◌, None, IfOk};
ghost use Rattle.spec_data.specs.Kept.{EtagsRise};
ghost use Rattle.raven_ports.specs.KeptMemory.{keeper_state};

use crate::calls::Calls;
use crate::keeper::{Keeper, KeeperFault, KeptRows};
use crate::log::Log;
use raven_base::{NoMemory, Numbers};
use std::alloc::Global;
use std::marker::Model;

/// A keeper that holds rows in memory.
///
/// It has them in a log. A commit takes time and memory that grow with the number of its rows. Rows that were replaced stay until
/// the log would have more than twice the rows that it had when such rows were last dropped, or until the documents stored since
/// then are larger than those that it had, with 1 KiB more for each row; that commit takes time and memory that grow with the number
/// of all rows and its logarithm. A cleaning takes such time and memory too.
pub struct MemKeeper {
    log: Log,
    calls: Calls,
}

// Opaque drop: see raven_base.
impl Drop for MemKeeper {
    fn drop(self) {
        let MemKeeper {
            log: _log,
            calls: _calls,
        } = self;
    }
}

impl Model for MemKeeper {
    ghost use Rattle.raven_ports.specs.KeptMemory.{KeptMemory};
    ghost use Rattle.raven_ports.specs.Logged.{IsLog, held_in};

    ghost Value = { KeptMemory };

    ghost view = { λ a. record { rows = held_in a.log.compacted a.log.rows.items; fails = a.calls.fails; calls = a.calls.count; faults = a.calls.faults } };

    ghost invariant = { λ a. IsLog a.log.compacted a.log.rows.items };
}

impl MemKeeper {
    /// A keeper that holds these rows. Its calls of the numbers in `fails`, counted from 1, fail. It takes no memory.
    pub fn of(rows: KeptRows, fails: Numbers) -> MemKeeper
        requires { EtagsRise None rows }
        ensures { result ≡ record { rows = rows; fails = fails; calls = 0; faults = 0 } }
    {
        MemKeeper {
            log: Log::of(rows),
            calls: Calls::of(fails),
        }
    }

    /// Copies of the rows that it holds, in order of etag. It is none of the counted calls, and never fails by the list.
    pub fn rows(&self, alloc: Global) -> Result<KeptRows, NoMemory>
        ensures { IfOk result (λ rows. rows ≡ self.now.rows) }
    {
        Ok(KeptRows::of(self.log.copies(alloc)?))
    }
}

impl Keeper for MemKeeper {
    ghost state = { keeper_state };

    fn faults(&self) -> u64 {
        self.calls.faults()
    }

    fn load(
        &mut self,
        alloc: Global,
        after: Option<u64>,
        max: u32,
    ) -> Result<KeptRows, KeeperFault> {
        if self.calls.next_fails() {
            return Err(KeeperFault::Failed);
        }
        let Ok(rows) = self.log.load(alloc, after, max as usize) else {
            return Err(KeeperFault::NoMemory);
        };
        Ok(rows)
    }

    fn commit(&mut self, rows: &KeptRows) -> Result<(), KeeperFault> {
        if self.calls.next_fails() {
            return Err(KeeperFault::Failed);
        }
        if self.log.add(rows.as_slice()).is_err() {
            return Err(KeeperFault::NoMemory);
        }
        Ok(())
    }

    fn clean(&mut self, upto: u64) -> Result<(), KeeperFault> {
        if self.calls.next_fails() {
            return Err(KeeperFault::Failed);
        }
        if self.log.clean(upto).is_err() {
            return Err(KeeperFault::NoMemory);
        }
        Ok(())
    }
}
