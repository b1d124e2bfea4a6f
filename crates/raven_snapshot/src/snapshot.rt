//! What an answer is read from.
ghost use Rattle.std.specs.Prelude.{◌≡◌};

use doc_store::Store;
use doc_txn::{BaseId, Limits};
use side_by_side::{Parts, Slots};
use std::marker::Model;

/// A database as it stands: its store, its live indexes, its base id and its limits.
#[derive(Drop)]
pub struct Snapshot<'w> {
    pub(crate) store: &'w Store,
    pub(crate) slots: &'w Slots,
    pub(crate) base: &'w BaseId,
    pub(crate) limits: Limits,
}

impl<'w> Model for Snapshot<'w> {
    ghost use Rattle.spec_index.specs.World as world;
    ghost use Rattle.spec_index.specs.Codes.{world_code};
    ghost use Rattle.doc_txn.specs.SettingView.{setting_of};
    ghost use Rattle.side_by_side.specs.Standing.{world_of};

    ghost Value = { world.World };

    ghost coded = { world_code };

    ghost view = { λ a. world_of (setting_of a.base.now a.limits) a.store.now a.slots.now };
}

impl<'w> Snapshot<'w> {
    /// The database of these parts.
    pub fn of(parts: Parts<'w>) -> Snapshot<'w>
        ensures { result ≡ parts.entry }
    {
        let Parts {
            store,
            slots,
            base,
            limits,
        } = parts;
        Snapshot {
            store,
            slots,
            base,
            limits,
        }
    }
}
