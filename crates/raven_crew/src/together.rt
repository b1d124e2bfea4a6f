//! Jobs that all begin at one word, or none does.
ghost use Rattle.std.specs.Prelude.{◌≡◌, IfOk, MatchResult, List};
ghost use Rattle.std.specs.List.{AllZip};
ghost use Rattle.raven_crew.specs.Outcomes.{IsOutcome};
ghost use Rattle.raven_crew.specs.Beginnings.{IsBegun};
ghost use Rattle.raven_crew.specs.Refusals.{HandsBack};

use crate::job::Job;
use crate::outcomes::{are_returned, finish_all, outputs_of, returned_of};
use crate::start::{Begun, GO, WAIT, start};
use std::alloc::{AllocError, Global};
use std::sync::Wait;
use std::sync::atomic::AtomicU64;
use std::sync::atomic::Ordering::SeqCst;
use std::thread;
use std::thread::{Scope, Threads};

/// Why the outputs of jobs are missing.
#[derive(Drop)]
pub enum CrewFault<J> {
    /// No job was begun. These are all of them, in order.
    Refused(Vec<J>),

    /// Out of memory. Some jobs may have run, and the jobs and their outputs are lost.
    NoMemory,
}

fn start_all<'s, E, J: Job + Send + Drop + 's, R: Threads + Wait + Sync>(
    rt: &'s R,
    alloc: Global,
    scope: &Scope<'s, E>,
    word: &'s AtomicU64,
    jobs: Vec<J>,
) -> Result<Vec<Begun<J>>, AllocError>
where
    J::Out: Send + Drop + 's,
    ensures { IfOk result (λ v. AllZip (IsBegun J.done) jobs.items v.items) }
{
    let mut begun = Vec::with_capacity(alloc, jobs.len())?;
    for job in jobs {
        begun.push_reserved(start(rt, scope, word, job));
    }
    Ok(begun)
}

// The outputs, or the jobs if all came back. All threads read one word, so all ran or all came back; if only some came back, they run
// here, since jobs that ran can't be handed back.
fn sorted<J: Job + Drop, R: Threads + Wait + Sync>(
    rt: &R,
    alloc: Global,
    outcomes: Vec<Result<J::Out, J>>,
) -> Result<Vec<J::Out>, CrewFault<J>>
where
    J::Out: Drop,
    ensures { (jobs : List J) → AllZip (IsOutcome J.done) jobs outcomes.items → MatchResult result (λ v. AllZip J.done jobs v.items) (HandsBack jobs) }
{
    if are_returned(&outcomes) {
        match returned_of(alloc, outcomes) {
            Ok(jobs) => Err(CrewFault::Refused(jobs)),
            Err(_) => Err(CrewFault::NoMemory),
        }
    } else {
        match outputs_of(rt, alloc, outcomes) {
            Ok(outputs) => Ok(outputs),
            Err(_) => Err(CrewFault::NoMemory),
        }
    }
}

/// Runs all jobs beside one another, each in a thread of its own, or hands all back if one of the threads can't be started.
pub(crate) fn run_together<J: Job + Send + Drop, R: Threads + Wait + Sync>(
    rt: &R,
    alloc: Global,
    jobs: Vec<J>,
) -> Result<Vec<J::Out>, CrewFault<J>>
where
    J::Out: Send + Drop,
    ensures { MatchResult result (λ v. AllZip J.done jobs.items v.items) (HandsBack jobs.items) }
{
    let word = AtomicU64::new(WAIT);
    let at = &word;
    let outcomes = thread::scope(
        thread::scope_env(),
        rt,
        |scope| -> Result<Vec<Result<J::Out, J>>, AllocError>
            ensures { IfOk result (λ v. AllZip (IsOutcome J.done) jobs.items v.items) }
        { in_scope(rt, alloc, scope, at, jobs) },
    );
    match outcomes {
        Ok(outcomes) => sorted(rt, alloc, outcomes),
        Err(_) => Err(CrewFault::NoMemory),
    }
}

fn in_scope<'s, E, J: Job + Send + Drop + 's, R: Threads + Wait + Sync>(
    rt: &'s R,
    alloc: Global,
    scope: &Scope<'s, E>,
    word: &'s AtomicU64,
    jobs: Vec<J>,
) -> Result<Vec<Result<J::Out, J>>, AllocError>
where
    J::Out: Send + Drop + 's,
    ensures { IfOk result (λ v. AllZip (IsOutcome J.done) jobs.items v.items) }
{
    let begun = start_all(rt, alloc, scope, word, jobs)?;
    // It stays as it is if a start was refused.
    let _ = word.compare_exchange(WAIT, GO, SeqCst, SeqCst);
    word.wake_all();
    finish_all(rt, alloc, begun)
}
