//! A crew of real threads.
ghost use Rattle.std.specs.Prelude.{None};

use raven_crew::{Crew, Way};

/// A crew whose jobs all begin once each has its thread, or none does.
#[derive(Drop)]
pub struct RealCrew {
    faults: u64,
}

impl RealCrew {
    /// A crew that has not failed.
    pub fn new() -> Self {
        RealCrew { faults: 0 }
    }
}

impl Crew for RealCrew {
    ghost state = { λ c. record { plan = None; faults = c.faults } };

    fn way(&mut self) -> Way {
        Way::Together
    }

    fn raise(&mut self) {
        self.faults = self.faults.saturating_add(1);
    }
}
