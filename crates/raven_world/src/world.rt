//! The world.
ghost use Rattle.std.specs.Prelude.{◌≡◌, [], IfOk};
ghost use Rattle.spec_store.specs.Store.{last};
ghost use Rattle.spec_server.specs.Courses.{one_change};
ghost use Rattle.raven_reply.specs.ReplyView.{reply_view};
ghost use Rattle.doc_txn.specs.SettingView.{setting_of};
ghost use Rattle.side_by_side.specs.Standing.{world_of};
ghost use Rattle.raven_world.specs.Roomy.{NumbersUpTo};
ghost use Rattle.raven_world.specs.WorldView.{change_view};
ghost use Rattle.raven_world.specs.declared.world.WorldFault.TheVariants.{NoMemory as OutOfMemory};

use doc_store::Store;
use doc_txn::{BaseId, Limits};
use raven_base::NoMemory;
use raven_reply::Reply;
use raven_value::{Name, Rows};
use side_by_side::{Parts, Slots};
use std::alloc::Global;
use std::marker::Model;

/// A database: its store, its indexes and the notes of their switches, with the base id and the limits, which nothing changes.
pub struct World {
    pub(crate) store: Store,
    /// The indexes, which the worlds after a change of documents share.
    pub(crate) slots: Slots,
    pub(crate) base: BaseId,
    pub(crate) limits: Limits,
}

// Opaque drop: see raven_base.
impl Drop for World {
    fn drop(self) {
        let World {
            store: _store,
            slots: _slots,
            base: _base,
            limits: _limits,
        } = self;
    }
}

impl Model for World {
    ghost use Rattle.spec_index.specs.World as world;
    ghost use Rattle.spec_index.specs.Codes.{world_code};
    ghost use Rattle.doc_txn.specs.SettingView.{setting_of};
    ghost use Rattle.side_by_side.specs.Standing.{world_of};

    ghost Value = { world.World };

    ghost coded = { world_code };

    ghost view = { λ a. world_of (setting_of a.base a.limits) a.store a.slots };

    ghost use Rattle.raven_world.specs.Roomy.{IsRoomy};

    ghost invariant = { λ a. IsRoomy a.store a.limits.rows a.limits.slots a.slots.slots };
}

/// A new world, the rows that its keeper is to take, and the reply to what was asked.
#[derive(Drop)]
pub struct Change {
    pub world: World,
    pub rows: Rows,
    pub reply: Reply,
}

/// A world after a change of its indexes, and the rows that its keeper is to take.
#[derive(Drop)]
pub struct Rewritten {
    pub world: World,
    pub rows: Rows,
}

/// A world after an index is defined or made, the rows that its keeper is to take, and the name of the index.
#[derive(Drop)]
pub struct Made {
    pub world: World,
    pub rows: Rows,
    pub name: Name,
}

/// Why a change was not made. The world is as it was.
#[derive(Drop)]
pub enum WorldFault {
    /// The change is refused, with this reply.
    Refused(Reply),

    /// No memory was found.
    NoMemory,
}

impl From<NoMemory> for WorldFault {
    ghost from_gives = { λ _ fault. fault ≡ OutOfMemory };

    fn from(_lack: NoMemory) -> WorldFault {
        WorldFault::NoMemory
    }
}

impl World {
    /// The database as it stands.
    pub fn parts(&self) -> Parts<'_>
        ensures { result ≡ self.now }
    {
        Parts {
            store: &self.store,
            slots: &self.slots,
            base: &self.base,
            limits: self.limits,
        }
    }

    /// The database of these parts.
    pub(crate) fn of_parts(store: Store, slots: Slots, base: BaseId, limits: Limits) -> World
        requires { NumbersUpTo (last store) slots.slots }
        ensures { result ≡ world_of (setting_of base limits) store slots }
    {
        World {
            store,
            slots,
            base,
            limits,
        }
    }

    /// The world with this store and these indexes.
    pub(crate) fn with(&self, store: Store, slots: Slots) -> Result<World, NoMemory>
        requires { NumbersUpTo (last store) slots.slots }
        ensures { IfOk result (λ world. world ≡ world_of self.now.setting store slots) }
    {
        Ok(World {
            store,
            slots,
            base: self.base.clone()?,
            limits: self.limits,
        })
    }

    /// The world with these indexes over its store.
    pub(crate) fn with_slots(&self, slots: Slots) -> Result<World, NoMemory>
        requires { NumbersUpTo (last self.now.store) slots.slots }
        ensures { IfOk result (λ world. world ≡ world_of self.now.setting self.now.store slots) }
    {
        self.with(self.store.clone()?, slots)
    }
}
