//! The draws of the generator.
ghost use Rattle.std.specs.Prelude.{◌≡◌};
ghost use Rattle.spec_measure.specs.Draws.{next as spec_next};

use std::marker::Model;

/// The draws that follow a seed. Contracts see the last of them or, before the first, the seed.
#[derive(Drop)]
pub struct Draws {
    last: u32,
}

impl Model for Draws {
    ghost use Rattle.std.specs.Prelude.{ℕ};

    ghost Value = { ℕ };

    ghost view = { λ a. a.last };
}

impl Draws {
    /// The draws that follow this seed.
    pub fn of(seed: u32) -> Draws
        ensures { result ≡ seed }
    {
        Draws { last: seed }
    }

    /// The next draw.
    pub fn next(&mut self) -> u64
        ensures draw { result ≡ spec_next self.old }
        ensures last { self.new ≡ result }
    {
        let draw = u64::from(self.last) * 48_271 % 2_147_483_647;
        self.last = draw as u32;
        draw
    }
}
