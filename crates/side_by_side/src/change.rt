//! Changes of the live indexes, and why one is refused.
ghost use Rattle.std.specs.Prelude.{◌≡◌, IfOk, map};
ghost use Rattle.spec_index.specs.World.{NumbersRise};
ghost use Rattle.doc_txn.specs.CommandView.{command_view};
ghost use Rattle.side_by_side.specs.Changes.{change_view};
ghost use Rattle.side_by_side.specs.declared.change.SlotRefusal.TheVariants.{NoMemory as OutOfMemory};

use crate::slot::Slot;
use crate::slots::Slots;
use doc_txn::Commands;
use raven_base::NoMemory;
use raven_value::Name;
use std::alloc::{AllocError, Global};

/// The indexes after a change, and the commands by which their rows are written. The server commits them in one transaction.
#[derive(Drop)]
pub struct SlotChange {
    pub slots: Slots,
    pub commands: Commands,

    /// The name that the change is about, as its index spells it.
    pub name: Name,
}

/// Why the indexes are not changed.
#[derive(Drop)]
pub enum SlotRefusal {
    /// No index serves the name.
    NoIndex,

    /// There are as many indexes as may be.
    TooManyIndexes,

    /// The replacement has not seen all that it reads.
    NotFresh {
        /// How far the replacement has come.
        index_etag: u64,

        /// The etag of the newest row that it reads, which is greater.
        newest: u64,
    },

    /// The index has no replacement.
    NoReplacement,

    /// There are as many notes as may be.
    NotesFull,

    /// Only the server gives such names.
    ReservedName,

    /// The name has so many bytes.
    NameTooLong {
        len: u64,
    },

    /// No memory was found.
    NoMemory,
}

impl From<NoMemory> for SlotRefusal {
    ghost from_gives = { λ _ refusal. refusal ≡ OutOfMemory };

    fn from(_lack: NoMemory) -> SlotRefusal {
        SlotRefusal::NoMemory
    }
}

impl From<AllocError> for SlotRefusal {
    ghost from_gives = { λ _ refusal. refusal ≡ OutOfMemory };

    fn from(_lack: AllocError) -> SlotRefusal {
        SlotRefusal::NoMemory
    }
}

impl Slots {
    /// The change to these indexes, by these commands.
    pub(crate) fn changed(
        &self,
        alloc: Global,
        slots: Vec<Slot>,
        commands: Commands,
        name: &Name,
    ) -> Result<SlotChange, NoMemory>
        requires { NumbersRise 0 slots.items }
        ensures { IfOk result (λ change. change_view change ≡ record { slots = slots.items; notes = self.now.notes; commands = map command_view commands; name = name.now }) }
    {
        Ok(SlotChange {
            slots: self.with_list(alloc, slots)?,
            commands,
            name: name.clone()?,
        })
    }
}
