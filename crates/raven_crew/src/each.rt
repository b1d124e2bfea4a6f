//! Jobs that each begin as soon as they are started, and run here if their start is refused.
ghost use Rattle.std.specs.Prelude.{◌≡◌, IfOk, List, length, vec_len};
ghost use Rattle.std.specs.List.{AllZip};
ghost use Rattle.raven_crew.specs.Beginnings.{IsBegun};

use crate::job::Job;
use crate::outcomes::{finish_all, outputs_of};
use crate::start::{Begun, GO, start};
use std::alloc::{AllocError, Global};
use std::sync::Wait;
use std::sync::atomic::AtomicU64;
use std::thread;
use std::thread::{Scope, Threads};

/// Runs all jobs, each in a thread of its own. One whose start is refused runs here, after the others were started.
pub(crate) fn run_each<J: Job + Send + Drop, R: Threads + Wait + Sync>(
    rt: &R,
    alloc: Global,
    jobs: Vec<J>,
) -> Result<Vec<J::Out>, AllocError>
where
    J::Out: Send + Drop,
    ensures { IfOk result (λ v. AllZip J.done jobs.items v.items) }
{
    let words = words_to_go(alloc, jobs.len())?;
    let at = words.as_slice();
    thread::scope(
        thread::scope_env(),
        rt,
        |scope| -> Result<Vec<J::Out>, AllocError>
            requires { length at.now ≡ vec_len jobs }
            ensures { IfOk result (λ v. AllZip J.done jobs.items v.items) }
        { in_scope(rt, alloc, scope, at, jobs) },
    )
}

// A word for each job, so that one that is called back calls back no other.
fn words_to_go(alloc: Global, count: usize) -> Result<Vec<AtomicU64>, AllocError>
    ensures { IfOk result (λ v. vec_len v ≡ count) }
{
    let mut words = Vec::with_capacity(alloc, count)?;
    for _ in 0..count {
        words.push(AtomicU64::new(GO))?;
    }
    Ok(words)
}

fn in_scope<'s, E, J: Job + Send + Drop + 's, R: Threads + Wait + Sync>(
    rt: &'s R,
    alloc: Global,
    scope: &Scope<'s, E>,
    words: &'s [AtomicU64],
    jobs: Vec<J>,
) -> Result<Vec<J::Out>, AllocError>
where
    J::Out: Send + Drop + 's,
    requires { length words.now ≡ vec_len jobs }
    ensures { IfOk result (λ v. AllZip J.done jobs.items v.items) }
{
    let begun = start_each(rt, alloc, scope, words, jobs)?;
    let begun = run_returned(rt, alloc, begun)?;
    let outcomes = finish_all(rt, alloc, begun)?;
    outputs_of(rt, alloc, outcomes)
}

fn start_each<'s, E, J: Job + Send + Drop + 's, R: Threads + Wait + Sync>(
    rt: &'s R,
    alloc: Global,
    scope: &Scope<'s, E>,
    words: &'s [AtomicU64],
    jobs: Vec<J>,
) -> Result<Vec<Begun<J>>, AllocError>
where
    J::Out: Send + Drop + 's,
    requires { length words.now ≡ vec_len jobs }
    ensures { IfOk result (λ v. AllZip (IsBegun J.done) jobs.items v.items) }
{
    let mut begun = Vec::with_capacity(alloc, jobs.len())?;
    let mut next = 0;
    for job in jobs {
        begun.push_reserved(start(rt, scope, &words[next], job));
        next += 1;
    }
    Ok(begun)
}

// Runs the job if it came back.
fn rerun<J: Job, R: Threads + Wait + Sync>(rt: &R, begun: Begun<J>) -> Begun<J>
    ensures { (job : J) → IsBegun J.done job begun → IsBegun J.done job result }
{
    match begun {
        Begun::InThread(thread) => Begun::InThread(thread),
        Begun::Here(Ok(output)) => Begun::Here(Ok(output)),
        Begun::Here(Err(job)) => Begun::Here(Ok(job.run(rt))),
    }
}

// Runs the jobs that came back, while the threads run the others.
fn run_returned<J: Job + Drop, R: Threads + Wait + Sync>(
    rt: &R,
    alloc: Global,
    begun: Vec<Begun<J>>,
) -> Result<Vec<Begun<J>>, AllocError>
where
    J::Out: Drop,
    ensures { (jobs : List J) → AllZip (IsBegun J.done) jobs begun.items → IfOk result (λ v. AllZip (IsBegun J.done) jobs v.items) }
{
    let mut all = Vec::with_capacity(alloc, begun.len())?;
    for one in begun {
        all.push_reserved(rerun(rt, one));
    }
    Ok(all)
}
