//! Jobs, and how all of them are run at once.
ghost use Rattle.std.specs.Prelude.{ℕ, ◌≡◌, ◌<◌, IfOk, slice_index_or, vec_len};
ghost use Rattle.std.specs.List.{AllZip};

use raven_base::NoMemory;
use std::sync::Wait;
use std::thread;
use std::thread::Threads;

/// A piece of work that one thread does.
pub trait Job {
    type Out;

    // What the job has returned.
    ghost done: { Self → Self.Out → Type 0 };

    fn run<R: Wait>(self, rt: &R) -> Self::Out
        ensures { done self result };
}

/// Runs each job in a thread of its own, and returns what they return, in the order of the jobs.
pub fn run_all<J: Job + Send + Drop, R: Threads + Wait + Sync>(
    rt: &R,
    jobs: Vec<J>,
) -> Result<Vec<J::Out>, NoMemory>
where
    J::Out: Send + Drop,
    ensures { IfOk result (λ outs. AllZip J.done jobs.items outs.items) }
{
    match by_place(rt, jobs) {
        Ok(outs) => Ok(outs),
        Err(none) => Err(none),
    }
}

// The same, stated place by place.
fn by_place<J: Job + Send + Drop, R: Threads + Wait + Sync>(
    rt: &R,
    jobs: Vec<J>,
) -> Result<Vec<J::Out>, NoMemory>
where
    J::Out: Send + Drop,
    ensures len { IfOk result (λ outs. vec_len outs ≡ vec_len jobs) }
    ensures each { IfOk result (λ outs. (k : ℕ) (job : J) (out : J.Out) → k < vec_len jobs
        → J.done (slice_index_or jobs.items k job) (slice_index_or outs.items k out)) }
{
    match thread::map_vec(rt, jobs, &|job: J| job.run(rt)) {
        Ok(outs) => Ok(outs),
        Err(_) => Err(NoMemory),
    }
}
