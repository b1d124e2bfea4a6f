//! Batches until there is nothing to do.
ghost use Rattle.std.specs.Prelude.{◌≡◌, ◌<◌, ◌^◌, IfErr, OnOk};
ghost use Rattle.raven_measure.specs.Doing.{CatchesUp, StopsCatchingUp};
ghost use Rattle.raven_measure.specs.OptionsView.{options_view};

use crate::filling::pumping;
use crate::making::{Measured, Stop};
use crate::options::Options;
use raven_ports::{Clock, Keeper};
use std::alloc::Global;
use std::thread::Threads;

impl<K: Keeper> Measured<K> {
    /// Makes batches until one moves nothing.
    pub fn catch_up<R: Threads + Sync, C: Clock>(
        &mut self,
        rt: &R,
        alloc: Global,
        clock: &C,
        options: Options,
    ) -> Result<(), Stop>
        requires few { self.old.moved < 2 ^ 40 }
        ensures done { OnOk result (CatchesUp (C.moment clock.now) (options_view options) self.old self.new) }
        ensures stopped { IfErr result (StopsCatchingUp (C.moment clock.now) (options_view options) self.old self.new) }
    {
        // The world is sound, so each batch that moves the etag brings the index closer to the last row.
        let _world = self.live().world();
        loop {
            let before = self.batches();
            self.make(rt, alloc, clock, pumping(alloc, options)?)?;
            if self.batches() == before {
                return Ok(());
            }
        }
    }
}
