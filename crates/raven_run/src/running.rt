//! The command `run`.
ghost use Rattle.std.specs.Prelude.{◌≡◌, ◌⊎◌};
ghost use Rattle.raven_run.specs.Ends.{IsUnopened, RunsRightly, end_answered as spec_end_answered, end_unopened as spec_end_unopened};
ghost use Rattle.raven_run.specs.Runs.{devices_of};

use crate::answering::answer_lines;
use crate::read::read_input;
use crate::run_end::RunEnd;
use crate::workers::Workers;
use doc_keeper::LoadFault;
use doc_txn::BaseId;
use raven_desk::{Live, Unopened};
use raven_ports::{Clock, Keeper, Sink, SinkFault, Source};
use std::alloc::Global;
use std::thread::Threads;

/// How a run ended, and the keeper that it was called with.
pub struct Ran<K> {
    pub end: RunEnd,
    pub keeper: K,
}

fn end_unopened(fault: LoadFault) -> RunEnd
    ensures { result ≡ spec_end_unopened fault }
{
    match fault {
        LoadFault::Failed => RunEnd::KeptFault,
        LoadFault::KeptBad { etag } => RunEnd::KeptBad { etag },
        LoadFault::NoMemory => RunEnd::NoMemory,
    }
}

fn end_answered(answered: Result<(), SinkFault>) -> RunEnd
    ensures { result ≡ spec_end_answered answered }
{
    match answered {
        Ok(()) => RunEnd::Done,
        Err(SinkFault::Failed) => RunEnd::WriteFault,
        Err(SinkFault::NoMemory) => RunEnd::NoMemory,
    }
}

/// Reads the whole input, opens the database of the rows that the keeper holds, and then answers one line after another, at the moments that the
/// clock gives.
///
/// What each end says of the run is in `RunsRightly`, one named fact after another: `done`, `read_fault`, `write_fault`, `kept_fault`,
/// `kept_bad`, `read`, `stopped`, `memory`, `too_large`, `within`, `complete` and `truth`.
pub fn run<R: Threads + Sync, S: Source, O: Sink, K: Keeper, C: Clock>(
    rt: &R,
    alloc: Global,
    base: BaseId,
    input: &mut S,
    output: &mut O,
    keeper: K,
    clock: &C,
) -> Ran<K>
    ensures ends { RunsRightly result.end (record {
      base = base;
      clock = C.moment clock.now;
      before = devices_of (S.state input.old) (O.state output.old) (K.state keeper);
      after = devices_of (S.state input.new) (O.state output.new) (K.state result.keeper);
    }) }
    ensures unwritten { (result.end ≡ RunEnd.ReadFault) ⊎ (result.end ≡ RunEnd.InputTooLarge)
        → (output.new ≡ output.old) × (result.keeper ≡ keeper) }
    ensures unopened { IsUnopened result.end → (output.new ≡ output.old) × ((K.state result.keeper).held ≡ (K.state keeper).held) }
{
    let script = match read_input(alloc, input) {
        Ok(script) => script,
        Err(end) => return Ran { end, keeper },
    };
    let mut live = match Live::open(alloc, keeper, base) {
        Ok(live) => live,
        Err(Unopened { keeper, fault }) => {
            let end = end_unopened(fault);
            return Ran { end, keeper };
        }
    };
    let mut workers = Workers::idle(alloc);
    let answered = answer_lines(rt, alloc, &mut live, &mut workers, clock, &script, output);
    let end = end_answered(answered);
    let keeper = live.into_keeper();
    Ran { end, keeper }
}
