//! What a database is made of, and what it has to clean.
ghost use Rattle.std.specs.Prelude.{◌≡◌};
ghost use Rattle.std.specs.List.{list_any};
ghost use Rattle.spec_store.specs.Cleaning.{is_old_tombstone};
ghost use Rattle.spec_index.specs.Cleaning.{clean_upto as spec_clean_upto, etags_reached, least};
ghost use Rattle.side_by_side.specs.Unread.{has_unread as spec_has_unread, is_unread as spec_is_unread};

use crate::slot::Slot;
use crate::slots::Slots;
use doc_store::Store;
use doc_txn::{BaseId, Limits};
use std::marker::Model;

/// A database as it stands, which is borrowed: its store, its live indexes, its base id and its limits.
#[derive(Drop)]
pub struct Parts<'w> {
    pub store: &'w Store,
    pub slots: &'w Slots,
    pub base: &'w BaseId,
    pub limits: Limits,
}

impl<'w> Model for Parts<'w> {
    ghost use Rattle.spec_index.specs.World as world;
    ghost use Rattle.spec_index.specs.Codes.{world_code};
    ghost use Rattle.doc_txn.specs.SettingView.{setting_of};
    ghost use Rattle.side_by_side.specs.Standing.{world_of};

    ghost Value = { world.World };

    ghost coded = { world_code };

    ghost view = { λ a. world_of (setting_of a.base.now a.limits) a.store.now a.slots.now };
}

// The least of an etag and of those that the indexes have reached which have read something.
fn least_reached(most: u64, slots: &[Slot]) -> u64
    ensures { result ≡ least most (etags_reached slots.now) }
{
    let mut upto = most;
    for slot in slots {
        let etag = slot.version.etag();
        if 0 < etag {
            upto = upto.min(etag);
        }
    }
    upto
}

// Whether an index has read nothing yet, though the store has something for it.
fn is_unread(store: &Store, slot: &Slot) -> bool
    ensures { result ≡ spec_is_unread store.now slot.now }
{
    slot.version.etag() == 0 && slot.is_stale(store)
}

impl<'w> Parts<'w> {
    /// The etag up to which tombstones may go: all indexes that have read something have reached it, and it is below that of the
    /// last row, which stays.
    pub fn clean_upto(&self) -> u64
        ensures { result ≡ spec_clean_upto self.now }
    {
        least_reached(self.store.last().saturating_sub(1), self.slots.list())
    }

    /// Whether a cleaning would remove something. It looks at each index once, and at no row.
    pub fn has_to_clean(&self) -> bool
        ensures { result ≡ list_any (is_old_tombstone (spec_clean_upto self.now)) self.now.store.rows }
    {
        self.store.has_old_tombstone(self.clean_upto())
    }

    /// Whether an index has read nothing yet, though the store has something for it. The first batch of such an index is not
    /// published if a cleaning overtakes it.
    pub fn has_unread(&self) -> bool
        ensures { result ≡ spec_has_unread self.now }
    {
        self.slots
            .list()
            .iter()
            .any(|slot| is_unread(self.store, slot))
    }
}
