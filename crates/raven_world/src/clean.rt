//! Cleaning a world.
ghost use Rattle.std.specs.Prelude.{◌≡◌, IfOk};
ghost use Rattle.spec_store.specs.Cleaning.{old_tombstones};
ghost use Rattle.spec_index.specs.Cleaning.{clean_upto as spec_clean_upto, cleaned_world};

use crate::world::World;
use raven_base::NoMemory;
use raven_value::Rows;
use std::alloc::Global;
use tombstones::{Cleaned, clean};

/// A world after a cleaning.
#[derive(Drop)]
pub struct Cleaning {
    pub world: World,

    /// The tombstones that went, in order of etag.
    pub gone: Rows,

    /// The etag up to which tombstones went.
    pub upto: u64,
}

impl World {
    /// The etag up to which tombstones may go: all indexes that have read something have reached it, and it is below that of the
    /// last row, which stays.
    pub fn clean_upto(&self) -> u64
        ensures { result ≡ spec_clean_upto self.now }
    {
        self.parts().clean_upto()
    }

    /// The world without the tombstones that no index has to read any more. The indexes and the notes are as they were.
    pub fn clean(&self, alloc: Global) -> Result<Cleaning, NoMemory>
        ensures world { IfOk result (λ cleaning. cleaning.world ≡ cleaned_world self.now) }
        ensures gone { IfOk result (λ cleaning. cleaning.gone ≡ old_tombstones (spec_clean_upto self.now) self.now.store.rows) }
        ensures upto { IfOk result (λ cleaning. cleaning.upto ≡ spec_clean_upto self.now) }
    {
        let upto = self.clean_upto();
        let Cleaned { store, gone } = clean(alloc, &self.store, upto)?;
        // A store tells with its last etag that its etags rise, and so the last row stays, which no index has a number past.
        let _last = self.store.last();
        let world = self.with(store, self.slots.clone()?)?;
        Ok(Cleaning { world, gone, upto })
    }
}
