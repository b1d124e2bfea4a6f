//! What the threads of a test wait for.
ghost use Rattle.std.specs.Prelude.{◌≡◌, Some};

use raven_ports::Clock;
use serve_ports::{Gate, Point};
use std::process::Abort;
use std::sync::atomic::AtomicU64;
use std::sync::atomic::Ordering::SeqCst;
use std::thread::yield_now;

/// How many turns a wait has. If it has no more, the test fails.
const TURNS: u32 = 5_000_000;

/// How many naps are asked for at most. With more the test fails.
const NAPS: u64 = 100_000;

/// What was done so far.
#[derive(Drop)]
pub struct Stage<'r, R: Abort> {
    rt: &'r R,

    /// How often a pump has read a batch.
    reads: AtomicU64,

    /// How often anything napped.
    naps: AtomicU64,

    /// How many responses the connection was given that waits for a pump.
    answers: AtomicU64,
}

impl<'r, R: Abort> Stage<'r, R> {
    pub fn new(rt: &'r R) -> Stage<'r, R> {
        Stage {
            rt,
            reads: AtomicU64::new(0),
            naps: AtomicU64::new(0),
            answers: AtomicU64::new(0),
        }
    }

    // Waits until the count is at least this.
    fn until(&self, count: &AtomicU64, least: u64, name: &str) {
        for _ in 0..TURNS {
            if count.load(SeqCst) >= least {
                return;
            }
            yield_now();
        }
        panic!(self.rt; "a wait for {name} {least} has no more turns")
    }

    /// Waits until a pump has read a batch.
    pub fn until_read(&self) {
        self.until(&self.reads, 1, "read");
    }

    /// The connection that waits for a pump was given a response.
    pub fn answered(&self) {
        self.answers.fetch_add(1, SeqCst);
    }
}

/// Holds a pump that has read a batch, until the connection that waits for a pump is answered; and a query that has looked, until a pump has read
/// twice and something napped after that.
#[derive(Drop)]
pub struct TestGate<'a, 'r, R: Abort> {
    pub stage: &'a Stage<'r, R>,
}

impl<'a, 'r, R: Abort> Gate for TestGate<'a, 'r, R> {
    fn at(&self, point: Point) {
        let stage = self.stage;
        match point {
            Point::AfterRead => {
                stage.reads.fetch_add(1, SeqCst);
                stage.until(&stage.answers, 1, "answer");
            }
            Point::BeforePublish => {}
            Point::AfterLook => {
                stage.until(&stage.reads, 2, "read");
                let naps = stage.naps.load(SeqCst);
                stage.until(&stage.naps, naps.saturating_add(1), "nap");
            }
        }
    }
}

/// A clock that stands still, and counts naps.
#[derive(Drop)]
pub struct TestClock<'a, 'r, R: Abort> {
    pub stage: &'a Stage<'r, R>,
}

impl<'a, 'r, R: Abort> Clock for TestClock<'a, 'r, R> {
    ghost moment = { λ _. Some 0 };

    fn now(&self) -> u64 {
        0
    }

    fn nap(&self) {
        let naps = self.stage.naps.fetch_add(1, SeqCst);
        assert!(self.stage.rt; naps < NAPS, "there are no more naps");
        yield_now();
    }
}
