//! Which calls of a device in memory fail.
ghost use Rattle.std.specs.Prelude.{◌≡◌, ◌≤◌, true, false};
ghost use Rattle.raven_ports.specs.Faults.{Rose};
ghost use Rattle.raven_ports.specs.Plan.{is_failing, one_later};

use raven_base::Numbers;
use std::marker::Model;

/// The calls of a device in memory, which fail by a list of their numbers, counted from 1. Both its counts stop at the last number
/// of 64 bits.
#[derive(Drop)]
pub struct Calls {
    fails: Numbers,
    count: u64,
    faults: u64,
}

impl Model for Calls {
    ghost use Rattle.std.specs.Prelude.{length, ◌==◌, if◌then◌else◌};
    ghost use Rattle.serve_ports.specs.Counted.{Counted};

    ghost Value = { Counted };

    ghost view = { λ a. record { plan = record { fails = a.fails; calls = a.count }; faults = if length a.fails == 0 then 0 else a.faults } };
}

impl Calls {
    /// No calls yet. It takes no memory.
    pub fn of(fails: Numbers) -> Calls
        ensures { result ≡ record { plan = record { fails = fails; calls = 0 }; faults = 0 } }
    {
        Calls {
            fails,
            count: 0,
            faults: 0,
        }
    }

    /// Counts a call, and returns whether it fails. If the list is empty no call fails, and there is no fault.
    pub fn next_fails(&mut self) -> bool
        ensures planned { result ≡ is_failing self.old.plan }
        ensures called { self.new.plan ≡ one_later self.old.plan }
        ensures same { result ≡ false → self.new.faults ≡ self.old.faults }
        ensures later { self.old.faults ≤ self.new.faults }
        ensures cause { result ≡ true → Rose self.old.faults self.new.faults }
    {
        self.count = self.count.saturating_add(1);
        if !self.fails.as_slice().contains(&self.count) {
            return false;
        }
        self.faults = self.faults.saturating_add(1);
        true
    }
}
