//! A crew whose calls fail by a list.
ghost use Rattle.std.specs.Prelude.{◌≡◌};
ghost use Rattle.raven_crew.specs.Crews.{crew_state};

use crate::crew::{Crew, Way};
use raven_base::Numbers;
use serve_ports::Calls;
use std::marker::Model;

/// A crew that gives each job a thread of one scope. The calling thread runs each job whose start is refused, after the others
/// were started.
#[derive(Drop)]
pub struct MemCrew {
    calls: Calls,
}

impl Model for MemCrew {
    ghost use Rattle.serve_ports.specs.Counted.{Counted};

    ghost Value = { Counted };

    ghost view = { λ a. a.calls };
}

impl MemCrew {
    /// A crew whose calls of the numbers in `fails`, counted from 1, are refused. It takes no memory.
    pub fn of(fails: Numbers) -> MemCrew
        ensures { result ≡ record { plan = record { fails = fails; calls = 0 }; faults = 0 } }
    {
        MemCrew {
            calls: Calls::of(fails),
        }
    }
}

impl Crew for MemCrew {
    ghost state = { crew_state };

    fn way(&mut self) -> Way {
        if self.calls.next_fails() {
            Way::Refused
        } else {
            Way::Each
        }
    }

    fn raise(&mut self) {}
}
