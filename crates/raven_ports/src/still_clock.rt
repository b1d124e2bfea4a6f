//! A clock that stands still.
ghost use Rattle.std.specs.Prelude.{◌≡◌, ◌<◌, Some};
ghost use Rattle.spec_data.specs.Limits.{moments_end};

use crate::keeper::Clock;
use std::marker::Model;

/// A clock that always gives one moment, seen by contracts as that moment.
#[derive(Drop)]
pub struct StillClock {
    moment: u64,
}

impl Model for StillClock {
    ghost use Rattle.std.specs.Prelude.{ℕ, ◌<◌};
    ghost use Rattle.spec_data.specs.Limits.{moments_end};

    ghost Value = { ℕ };

    ghost view = { λ a. a.moment };

    ghost invariant = { λ a. a.moment < moments_end };
}

impl StillClock {
    /// A clock that gives this moment, in microseconds since 1970 in UTC, which is before the year 9999.
    pub fn at(moment: u64) -> StillClock
        requires { moment < moments_end }
        ensures { result ≡ moment }
    {
        StillClock { moment }
    }
}

impl Clock for StillClock {
    ghost moment = { Some };

    fn now(&self) -> u64 {
        self.moment
    }

    fn nap(&self) {}
}
