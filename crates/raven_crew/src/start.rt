//! How one job is begun in a thread of a scope, which waits for a word.
ghost use Rattle.raven_crew.specs.Outcomes.{IsOutcome};
ghost use Rattle.raven_crew.specs.Beginnings.{IsBegun};

use crate::job::Job;
use std::snapshot::Snapshot;
use std::sync::Wait;
use std::sync::atomic::AtomicU64;
use std::sync::atomic::Ordering::SeqCst;
use std::thread::{Promise, PromisedHandle, Scope, Threads};

/// The word is not said yet: threads wait.
pub(crate) const WAIT: u64 = 0;

/// The word to run.
pub(crate) const GO: u64 = 1;

/// The word to hand the job back.
const BACK: u64 = 2;

/// The promise of a thread: its result is an outcome of this job.
#[derive(Drop)]
pub(crate) struct OfJob<J>(Snapshot<J>);

impl<J: Job> Promise<Result<J::Out, J>> for OfJob<J> {
    ghost use Rattle.raven_crew.specs.Outcomes.{IsOutcome};

    ghost kept_by = { λ p r. IsOutcome J.done p.0.value r };
}

/// A job that was begun: the thread that has it, or what became of it here.
#[derive(Drop)]
pub(crate) enum Begun<J: Job> {
    InThread(PromisedHandle<Result<J::Out, J>, OfJob<J>>),
    Here(Result<J::Out, J>),
}

impl<J: Job> Begun<J> {
    /// Waits until the job has run or has come back.
    pub(crate) fn finish<R: Threads>(self, rt: &R) -> Result<J::Out, J>
        ensures { (job : J) → IsBegun J.done job self → IsOutcome J.done job result }
    {
        match self {
            Begun::InThread(thread) => thread.join(rt),
            Begun::Here(outcome) => outcome,
        }
    }
}

// Waits for the word, and then runs the job or hands it back.
fn attempt<J: Job, R: Threads + Wait + Sync>(rt: &R, word: &AtomicU64, job: J) -> Result<J::Out, J>
    ensures { IsOutcome J.done job result }
{
    for _ in rt.forever() {
        match word.load(SeqCst) {
            WAIT => word.park(rt, 0),
            GO => return Ok(job.run(rt)),
            _ => return Err(job),
        }
    }
    unreachable!()
}

// Says the word to hand jobs back.
fn call_back(word: &AtomicU64) {
    word.store(BACK, SeqCst);
    word.wake_all();
}

/// Begins a job in a thread of the scope. If the start is refused, the word is to hand jobs back from then on, and this one is back
/// at once.
pub(crate) fn start<'s, E, J: Job + Send + Drop + 's, R: Threads + Wait + Sync>(
    rt: &'s R,
    scope: &Scope<'s, E>,
    word: &'s AtomicU64,
    job: J,
) -> Begun<J>
where
    J::Out: Send + Drop + 's,
    ensures { IsBegun J.done job result }
{
    let promise = OfJob(Snapshot::of(&job));
    match scope.spawn_with(promise, move || attempt(rt, word, job)) {
        Ok(thread) => Begun::InThread(thread),
        Err(refused) => {
            call_back(word);
            Begun::Here((refused.value)())
        }
    }
}
