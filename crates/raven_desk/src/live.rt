//! The value on which requests are answered.
ghost use Rattle.std.specs.Prelude.{◌≡◌, ◌-◌, IfOk};
ghost use Rattle.spec_server.specs.Machine.{machine_of};
ghost use Rattle.spec_server.specs.Sound.{Sound};
ghost use Rattle.spec_desk.specs.Keepers.{Keeps};
ghost use Rattle.spec_desk.specs.Lived.{lived, seen_of};

use crate::shot::Shot;
use raven_base::{NoMemory, Shared};
use raven_ports::Keeper;
use raven_turn::Grows;
use raven_world::World;
use std::alloc::Global;
use std::marker::Model;

/// A world, the keeper of its rows, and how many fronts are not at their end. The world is sound, and a keeper that reports its rows holds those of
/// the world. Nothing else calls the keeper.
pub struct Live<K: Keeper> {
    pub(crate) world: Shared<World>,
    pub(crate) keeper: K,
    pub(crate) fronts: u64,
}

// Opaque drop: see raven_base.
impl<K: Keeper + Drop> Drop for Live<K> {
    fn drop(self) {
        let Live {
            world: _world,
            keeper: _keeper,
            fronts: _fronts,
        } = self;
    }
}

impl<K: Keeper> Model for Live<K> {
    ghost use Rattle.spec_server.specs.Machine.{machine_of};
    ghost use Rattle.spec_desk.specs.Keepers.{Keeps};
    ghost use Rattle.spec_desk.specs.Lived.{Lived, lived};
    ghost use Rattle.spec_desk.specs.Codes.{lived_code};

    ghost Value = { Lived };

    ghost coded = { lived_code };

    ghost view = { λ l. lived l.world (K.state l.keeper) l.fronts };

    ghost invariant = { λ l. Keeps (K.state l.keeper).held (machine_of l.world) };
}

impl<K: Keeper> Live<K> {
    /// Its world.
    pub fn world(&self) -> &World
        ensures world { result.now ≡ self.now.world }
        ensures sound { Sound self.now.world }
    {
        self.world.get()
    }

    /// How often its keeper has failed.
    pub fn faults(&self) -> u64
        ensures { result ≡ self.now.keeper.count }
    {
        self.keeper.faults()
    }

    /// What a look takes away of it: the world is shared and not copied.
    pub fn shot(&self) -> Result<Shot, NoMemory>
        ensures shows { IfOk result (λ shot. shot ≡ seen_of self.now) }
        ensures sound { Sound self.now.world }
    {
        Ok(Shot {
            world: self.world.clone()?,
            fronts: self.fronts,
            faults: self.keeper.faults(),
        })
    }

    /// The same value, with so many fronts that are not at their end.
    pub fn with_fronts(self, fronts: u64) -> Live<K>
        ensures { result ≡ lived self.world self.keeper fronts }
    {
        let Live {
            world,
            keeper,
            fronts: _fronts,
        } = self;
        Live {
            world,
            keeper,
            fronts,
        }
    }

    /// One front came to its end. If there is none, the number stays 0.
    pub fn end_front(&mut self)
        ensures { self.new ≡ lived self.old.world self.old.keeper (self.old.fronts - 1) }
    {
        self.fronts = self.fronts.saturating_sub(1);
    }

    /// Its keeper, which holds the rows of the world, if it reports them.
    pub fn into_keeper(self) -> K
        ensures keeper { K.state result ≡ self.keeper }
        ensures keeps { Keeps (K.state result).held (machine_of self.world) }
    {
        let Live {
            world: _world,
            keeper,
            fronts: _fronts,
        } = self;
        keeper
    }
}

// The value of a turn: it only goes on.
impl<K: Keeper> Grows for Live<K> {
    ghost use Rattle.std.specs.Prelude.{◌≡◌};
    ghost use Rattle.spec_desk.specs.Lived.{Follows, etags, seen_of};
    ghost use Rattle.spec_desk.proofs.Later.{Follows-itself, Follows-then, etags-more};

    type Shot = Shot;

    ghost later = { Follows };

    ghost made = { etags };

    ghost shows = { λ x s. s ≡ seen_of x };

    fn shot(&self, _alloc: Global) -> Result<Shot, NoMemory> {
        self.shot()
    }

    ghost reflexive = { Follows-itself };

    ghost transitive = { Follows-then };

    ghost no_less = { etags-more };
}
