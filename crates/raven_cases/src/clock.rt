//! The clock of a run.
ghost use Rattle.std.specs.Prelude.{◌≡◌, ◌<◌, None};

use raven_ports::Clock;
use raven_value::END_OF_MOMENTS;
use std::sync::atomic::AtomicU64;
use std::sync::atomic::Ordering::SeqCst;
use std::thread::yield_now;

/// A clock that moves on by a step with each call, up to the last moment that there is. With a step of 0 it stands still.
#[derive(Drop)]
pub struct CaseClock {
    next: AtomicU64,
    step: u64,
}

impl CaseClock {
    /// A clock that returns this moment first, if a clock may return it.
    pub fn new(first: u64, step: u64) -> Option<CaseClock> {
        if first >= END_OF_MOMENTS {
            return None;
        }
        let next = AtomicU64::new(first);
        Some(CaseClock { next, step })
    }
}

impl Clock for CaseClock {
    ghost moment = { λ _. None };

    fn now(&self) -> u64 {
        let moment = self.next.load(SeqCst).min(END_OF_MOMENTS - 1);
        self.next.store(moment.saturating_add(self.step), SeqCst);
        moment
    }

    fn nap(&self) {
        yield_now();
    }
}
