//! What becomes of the jobs that were begun.
ghost use Rattle.std.specs.Prelude.{◌≡◌, IfOk, List, [], true};
ghost use Rattle.std.specs.List.{AllZip};
ghost use Rattle.raven_crew.specs.Outcomes.{IsOutcome, outputs_in, returned_in};
ghost use Rattle.raven_crew.specs.Beginnings.{IsBegun};

use crate::job::Job;
use crate::start::Begun;
use std::alloc::{AllocError, Global};
use std::sync::Wait;
use std::thread::Threads;

/// Waits until each job has run or has come back.
pub(crate) fn finish_all<J: Job + Drop, R: Threads>(
    rt: &R,
    alloc: Global,
    begun: Vec<Begun<J>>,
) -> Result<Vec<Result<J::Out, J>>, AllocError>
where
    J::Out: Drop,
    ensures { (jobs : List J) → AllZip (IsBegun J.done) jobs begun.items → IfOk result (λ v. AllZip (IsOutcome J.done) jobs v.items) }
{
    let mut outcomes = Vec::with_capacity(alloc, begun.len())?;
    for one in begun {
        outcomes.push_reserved(one.finish(rt));
    }
    Ok(outcomes)
}

/// Whether all jobs came back, and there are any.
pub(crate) fn are_returned<J: Job>(outcomes: &[Result<J::Out, J>]) -> bool
    ensures { result ≡ true → outputs_in outcomes.now ≡ [] }
{
    for outcome in outcomes {
        if outcome.is_ok() {
            return false;
        }
    }
    !outcomes.is_empty()
}

/// The jobs that came back.
pub(crate) fn returned_of<J: Job + Drop>(
    alloc: Global,
    outcomes: Vec<Result<J::Out, J>>,
) -> Result<Vec<J>, AllocError>
where
    J::Out: Drop,
    ensures { IfOk result (λ v. v.items ≡ returned_in outcomes.items) }
{
    let mut returned = Vec::with_capacity(alloc, outcomes.len())?;
    for outcome in outcomes {
        let back = outcome.err();
        if let Some(job) = back {
            returned.push_reserved(job);
        }
    }
    Ok(returned)
}

fn output_of<J: Job, R: Threads + Wait + Sync>(rt: &R, outcome: Result<J::Out, J>) -> J::Out
    ensures { (job : J) → IsOutcome J.done job outcome → J.done job result }
{
    match outcome {
        Ok(output) => output,
        Err(job) => job.run(rt),
    }
}

/// The outputs of all jobs. Those that came back run here.
pub(crate) fn outputs_of<J: Job + Drop, R: Threads + Wait + Sync>(
    rt: &R,
    alloc: Global,
    outcomes: Vec<Result<J::Out, J>>,
) -> Result<Vec<J::Out>, AllocError>
where
    J::Out: Drop,
    ensures { (jobs : List J) → AllZip (IsOutcome J.done) jobs outcomes.items → IfOk result (λ v. AllZip J.done jobs v.items) }
{
    let mut outputs = Vec::with_capacity(alloc, outcomes.len())?;
    for one in outcomes {
        outputs.push_reserved(output_of(rt, one));
    }
    Ok(outputs)
}
