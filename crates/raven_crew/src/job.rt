//! A piece of work that one thread does.
ghost use Rattle.std.specs.Thread.{IsSync};

use std::sync::Wait;
use std::thread::Threads;

/// A piece of work that one thread does from beginning to end.
pub trait Job {
    type Out;

    /// What a run does, as a relation between the job and its output.
    ghost done: { Self → Self.Out → Type 0 };

    /// Does the work. It may wait for other threads.
    fn run<R: Threads + Wait + Sync>(self, rt: &R) -> Self::Out
        requires { IsSync R.row }
        ensures { done self result };
}
