//! What runs jobs beside one another.
ghost use Rattle.std.specs.Prelude.{◌≡◌, ◌≤◌, IfSome, MatchResult, None, false, true, option_map};
ghost use Rattle.std.specs.List.{AllZip};
ghost use Rattle.raven_ports.specs.Faults.{Rose};
ghost use Rattle.raven_ports.specs.Plan.{is_failing, one_later};
ghost use Rattle.raven_crew.specs.Refusals.{HandsBack, is_refused};
ghost use Rattle.raven_crew.specs.Crews.{CrewState, is_to_refuse};

use crate::each::run_each;
use crate::job::Job;
use crate::together::{CrewFault, run_together};
use std::alloc::Global;
use std::sync::Wait;
use std::thread::Threads;

/// How jobs are run.
#[derive(Clone, Copy)]
pub enum Way {
    /// Each in a thread. All begin at one word, or none does, if one of the threads can't be started.
    Together,

    /// Each in a thread as soon as it is started, or in the calling thread, if its thread can't be started.
    Each,

    /// None: the call of the crew fails.
    Refused,
}

/// What runs jobs beside one another. Nothing is proved of when they run.
///
/// The threads are started by [`Crew::run_all`], and the same for all crews: only a final method can be proved to send jobs of any
/// type to threads. Crews differ in the two other methods.
pub trait Crew {
    /// Which of its calls fail, if it reports that, and how often it has failed.
    ghost state: { Self → CrewState };

    /// How the jobs of the next call are run. It counts this call, and a fault only if it refuses them.
    fn way(&mut self) -> Way
        ensures planned { IfSome (state self.old).plan (λ p. is_to_refuse result ≡ is_failing p) }
        ensures together { result ≡ Way.Together → (state self.old).plan ≡ None }
        ensures called { (state self.new).plan ≡ option_map one_later (state self.old).plan }
        ensures same { is_to_refuse result ≡ false → (state self.new).faults ≡ (state self.old).faults }
        ensures later { (state self.old).faults ≤ (state self.new).faults }
        ensures cause { result ≡ Way.Refused → Rose (state self.old).faults (state self.new).faults };

    /// Counts a fault, if the crew does not report which of its calls fail.
    fn raise(&mut self)
        ensures plan { (state self.new).plan ≡ (state self.old).plan }
        ensures later { (state self.old).faults ≤ (state self.new).faults }
        ensures cause { (state self.old).plan ≡ None → Rose (state self.old).faults (state self.new).faults };

    /// Runs all jobs, and returns their outputs in the order of the jobs; or hands all jobs back, and none was run. Its count of faults
    /// rises exactly if it hands them back, as far as the count can rise.
    final fn run_all<J: Job + Send + Drop, R: Threads + Wait + Sync>(
        &mut self,
        rt: &R,
        alloc: Global,
        jobs: Vec<J>,
    ) -> Result<Vec<J::Out>, CrewFault<J>>
    where
        J::Out: Send + Drop,
        ensures done { MatchResult result (λ outputs. AllZip J.done jobs.items outputs.items) (HandsBack jobs.items) }
        ensures planned { IfSome (state self.old).plan (λ p. is_refused result ≡ is_failing p) }
        ensures called { (state self.new).plan ≡ option_map one_later (state self.old).plan }
        ensures same { is_refused result ≡ false → (state self.new).faults ≡ (state self.old).faults }
        ensures later { (state self.old).faults ≤ (state self.new).faults }
        ensures cause { is_refused result ≡ true → Rose (state self.old).faults (state self.new).faults }
    {
        match self.way() {
            Way::Refused => Err(CrewFault::Refused(jobs)),
            Way::Each => match run_each(rt, alloc, jobs) {
                Ok(outputs) => Ok(outputs),
                Err(_) => Err(CrewFault::NoMemory),
            },
            Way::Together => match run_together(rt, alloc, jobs) {
                Ok(outputs) => Ok(outputs),
                Err(CrewFault::NoMemory) => Err(CrewFault::NoMemory),
                Err(CrewFault::Refused(returned)) => {
                    self.raise();
                    Err(CrewFault::Refused(returned))
                }
            },
        }
    }
}
