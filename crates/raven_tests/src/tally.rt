//! A counter.
ghost use Rattle.std.specs.Prelude.{◌≡◌, ◌≤◌, ◌+◌};

use crate::rising::Rising;
use raven_base::NoMemory;
use raven_turn::Grows;
use std::alloc::Global;

/// How often it was raised.
#[derive(Drop)]
pub struct Tally {
    pub count: u64,
}

impl Grows for Tally {
    ghost use Rattle.std.specs.Prelude.{◌≡◌, ◌≤◌};
    ghost use Rattle.std.proofs.Common.{arith};

    type Shot = u64;

    ghost later = { λ x y. x.count ≤ y.count };

    ghost made = { λ x. x.count };

    ghost shows = { λ x shot. shot ≡ x.count };

    fn shot(&self, _alloc: Global) -> Result<u64, NoMemory> {
        Ok(self.count)
    }

    ghost reflexive = { λ x. Prim.omega arith };

    ghost transitive = { λ x y z a b. Prim.omega arith };

    ghost no_less = { λ x y a. a };
}

impl Rising for Tally {
    fn raise(&mut self, _alloc: Global, _tag: u64) -> bool {
        if self.count == u64::MAX {
            return false;
        }
        self.count += 1;
        true
    }

    fn number(shot: u64) -> u64 {
        shot
    }
}
