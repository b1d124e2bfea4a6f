//! What a look takes away.
ghost use Rattle.std.specs.Prelude.{◌≡◌};
ghost use Rattle.spec_server.specs.Sound.{Sound};

use raven_base::Shared;
use raven_world::World;
use std::marker::Model;

/// What a look takes away: the world, the fronts that are not at their end, and the keeper's count of faults.
pub struct Shot {
    pub(crate) world: Shared<World>,
    pub(crate) fronts: u64,
    pub(crate) faults: u64,
}

// Opaque drop: see raven_base.
impl Drop for Shot {
    fn drop(self) {
        let Shot {
            world: _world,
            fronts: _fronts,
            faults: _faults,
        } = self;
    }
}

impl Model for Shot {
    ghost use Rattle.spec_server.specs.Sound.{Sound};
    ghost use Rattle.spec_desk.specs.Lived.{Seen};
    ghost use Rattle.spec_desk.specs.Codes.{seen_code};

    ghost Value = { Seen };

    ghost coded = { seen_code };

    ghost view = { λ s. record { world = s.world; fronts = s.fronts; faults = s.faults } };

    ghost invariant = { λ s. Sound s.world };
}

impl Shot {
    /// The world.
    pub fn world(&self) -> &World
        ensures world { result.now ≡ self.now.world }
        ensures sound { Sound self.now.world }
    {
        self.world.get()
    }

    /// How many fronts were not at their end.
    pub fn fronts(&self) -> u64
        ensures { result ≡ self.now.fronts }
    {
        self.fronts
    }

    /// How often the keeper had failed.
    pub fn faults(&self) -> u64
        ensures { result ≡ self.now.faults }
    {
        self.faults
    }
}
