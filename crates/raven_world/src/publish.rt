//! Batches that are read, and published later.
ghost use Rattle.std.specs.Prelude.{◌≡◌, IfOk, IfSome, nat_lt, option_copied};
ghost use Rattle.std.specs.Result.{is_ok};
ghost use Rattle.spec_index.specs.World.{numbered, serving};
ghost use Rattle.spec_server.specs.Workers.{published, was_cleaned as spec_was_cleaned};
ghost use Rattle.slot_batches.specs.Batches.{CountFew};
ghost use Rattle.raven_world.specs.Publishing.{IsRead, MayPublish, published_view, read_of};
ghost use Rattle.raven_world.specs.declared.publish.PublishRefusal.TheVariants.{NoMemory as OutOfMemory};

use crate::world::World;
use doc_store::Store;
use index_version::IndexVersion;
use raven_base::{NoMemory, Steps};
use raven_value::Name;
use side_by_side::Slot;
use slot_batches::read;
use std::alloc::Global;
use std::sync::Arc;
use std::sync::ledger::Ledger;
use std::thread::Threads;

/// The next batch of an index, which can be published in this world and in later ones.
#[derive(Drop)]
pub struct Batch {
    /// The number of the index.
    pub number: u64,

    /// How far the index has come.
    pub from: u64,

    /// The version after the batch, or nothing if the index has seen all that it reads.
    pub version: Option<Arc<IndexVersion>>,
}

/// Why a batch is not published. The world is as it was.
#[derive(Drop)]
pub enum PublishRefusal {
    /// The index of this number is no longer there.
    Gone { number: u64 },

    /// The index has come as far as the batch, or further.
    Passed { now: u64 },

    /// Tombstones past the batch were cleaned since it was read, up to this etag.
    Cleaned { upto: u64 },

    /// No memory was found.
    NoMemory,
}

impl From<NoMemory> for PublishRefusal {
    ghost from_gives = { λ _ refusal. refusal ≡ OutOfMemory };

    fn from(_lack: NoMemory) -> PublishRefusal {
        PublishRefusal::NoMemory
    }
}

// Whether a version has come further than the index.
fn is_further(version: &IndexVersion, slot: &Slot) -> bool
    ensures { result ≡ nat_lt slot.now.version.etag version.now.version.etag }
{
    slot.version.etag() < version.etag()
}

// Whether more of the store was cleaned than of the one that the version has read, and past the version's etag.
fn was_cleaned(version: &IndexVersion, store: &Store) -> bool
    ensures { result ≡ spec_was_cleaned store.now version.now.version }
{
    version.cleaned() < store.cleaned() && version.etag() < store.cleaned()
}

// How far an index has come.
fn etag_of(slot: &Slot) -> u64
    ensures { result ≡ slot.now.version.etag }
{
    slot.version.etag()
}

impl World {
    /// The index of a number.
    pub fn slot(&self, number: u64) -> Option<&Slot>
        ensures { option_copied result ≡ numbered self.now.slots number }
    {
        self.slots.numbered(number)
    }

    /// Reads the next batch of at most `max` rows of the index that serves the name. The world stays as it is.
    pub fn read<R: Threads + Sync, L: Ledger>(
        &self,
        rt: &R,
        alloc: Global,
        max: u32,
        index: &Name,
        steps: &mut Steps<L>,
    ) -> Result<Option<Batch>, NoMemory>
        ensures read { IfOk result (IsRead self.now max index.now) }
        ensures bounds { CountFew self.now.store max (read_of (serving self.now.slots index.now)) (is_ok result) steps.old steps.new }
    {
        let Some(slot) = self.slots.serving(index) else {
            return Ok(None);
        };
        let version = read(rt, alloc, &self.store, slot, max, steps)?;
        Ok(Some(Batch {
            number: slot.number,
            from: etag_of(slot),
            version,
        }))
    }

    /// The world in which the version takes the place of that of the index of this number, if it has come further, and if no tombstones
    /// past it were cleaned since it was read.
    pub fn publish(
        &self,
        alloc: Global,
        number: u64,
        version: Arc<IndexVersion>,
    ) -> Result<World, PublishRefusal>
        requires { MayPublish self.now number version.value }
        ensures { IfSome (published_view result) (λ world. world ≡ published self.now number version.value.version) }
    {
        let Some(slot) = self.slot(number) else {
            return Err(PublishRefusal::Gone { number });
        };
        if !is_further(&version, slot) {
            return Err(PublishRefusal::Passed { now: etag_of(slot) });
        }
        if was_cleaned(&version, &self.store) {
            return Err(PublishRefusal::Cleaned {
                upto: self.store.cleaned(),
            });
        }
        let slots = self.slots.with_version(alloc, number, version)?;
        Ok(self.with_slots(slots)?)
    }
}
