//! What is answered to the lines of a script.
ghost use Rattle.std.specs.Prelude.{◌≡◌, ◌<◌, ◌≤◌, ◌⊎◌, IfOk, OnErr, OnOk, IsErrOf};
ghost use Rattle.spec_data.specs.Moments.{moments_end};
ghost use Rattle.spec_server.specs.Requests.{Do};
ghost use Rattle.spec_server.specs.Machine.{course_of};
ghost use Rattle.spec_server.specs.WellFormed.{IsWellFormed};
ghost use Rattle.raven_ports.specs.Faults.{Rose};
ghost use Rattle.raven_request.specs.RequestView.{request_view};
ghost use Rattle.raven_script.specs.LineView.{line_view};
ghost use Rattle.spec_desk.specs.Lived.{Follows, machine_with};
ghost use Rattle.spec_desk.specs.Stepped.{IsMadeInPart, Stays};
ghost use Rattle.raven_run.specs.Answering.{IsAnswered, IsCut, IsCutAt, IsHandled, IsPerformed};
ghost use Rattle.raven_run.specs.Answers.{Answers, StopsIn, StopsShort, state_in};
ghost use Rattle.raven_run.specs.Holding.{MayAllWait, all_held};

use crate::lines::next_line;
use crate::printing::{printed, settled};
use crate::workers::Workers;
use crate::working::{publish, read};
use raven_base::NoMemory;
use raven_desk::Live;
use raven_ports::{Clock, Keeper, Sink, SinkFault, give_all};
use raven_request::{Request, reply_to_refusal};
use raven_script::{Line, line};
use std::alloc::Global;
use std::thread::Threads;

// The step of a request.
fn perform<R: Threads + Sync, K: Keeper>(
    rt: &R,
    alloc: Global,
    live: &mut Live<K>,
    now: u64,
    request: Request,
) -> Result<Vec<u8>, NoMemory>
    requires { IsWellFormed (Do (request_view request)) }
    ensures performed { IfOk result (λ text. IsPerformed (request_view request) now live.old live.new text.items) }
    ensures lacks { OnErr result (Stays live.old live.new ⊎ IsMadeInPart (course_of live.old.world now (request_view request)).changes live.old live.new) }
    ensures later { Follows live.old live.new }
{
    let course = live.course(rt, alloc, now, request)?;
    settled(alloc, live, course)
}

// The step of what a line asks. If memory runs out, nothing changes, but the first changes of a TIDY or a MULTI may stand.
fn handle<R: Threads + Sync, K: Keeper>(
    rt: &R,
    alloc: Global,
    live: &mut Live<K>,
    workers: &mut Workers,
    now: u64,
    asks: Line,
) -> Result<Vec<u8>, NoMemory>
    requires formed { IsWellFormed (line_view asks) }
    requires waits { MayAllWait live.old.world workers.old }
    ensures handled { IfOk result (λ text. IsHandled (line_view asks) now live.old.keeper live.new.keeper
        (machine_with live.old (all_held workers.old)) (machine_with live.new (all_held workers.new)) text.items) }
    ensures cut { OnErr result (IsCut (λ request. line_view asks ≡ Do request) now (machine_with live.old (all_held workers.old)) live.old.keeper
        (machine_with live.new (all_held workers.new)) live.new.keeper.held) }
    ensures waits { MayAllWait live.new.world workers.new }
{
    match asks {
        Line::Do(request) => perform(rt, alloc, live, now, request),
        Line::Read { worker, max, index } => {
            read(rt, alloc, live.world(), workers, worker, max, &index)
        }
        Line::Publish { worker } => publish(alloc, live, workers, worker),
    }
}

// What is written for a line at this moment, in microseconds since 1970: the reply with its line end, or nothing for a line without bytes.
// If the keeper fails or memory runs out, nothing changes, but the first changes of a TIDY or a MULTI may stand.
#[tactic(auto, using(crate::proofs::Answered::answers))]
fn answer<R: Threads + Sync, K: Keeper>(
    rt: &R,
    alloc: Global,
    live: &mut Live<K>,
    workers: &mut Workers,
    now: u64,
    bytes: &[u8],
) -> Result<Vec<u8>, NoMemory>
    requires now { now < moments_end }
    requires waits { MayAllWait live.old.world workers.old }
    ensures answered { IfOk result (λ text. IsAnswered bytes.now now live.old.keeper live.new.keeper
        (machine_with live.old (all_held workers.old)) (machine_with live.new (all_held workers.new)) text.items) }
    ensures cut { OnErr result (IsCutAt bytes.now now (machine_with live.old (all_held workers.old)) live.old.keeper
        (machine_with live.new (all_held workers.new)) live.new.keeper.held) }
    ensures waits { MayAllWait live.new.world workers.new }
{
    match line(alloc, bytes) {
        Ok(Some(asks)) => handle(rt, alloc, live, workers, now, asks),
        Ok(None) => Ok(Vec::new(alloc)),
        Err(refusal) => {
            let reply = reply_to_refusal(refusal)?;
            printed(alloc, &reply)
        }
    }
}

/// Answers each line of a script on this database, and writes the replies. After `Failed` the database is that after the line whose reply
/// failed: no later line was executed.
#[tactic(auto, using(crate::proofs::Runs::steps))]
pub(crate) fn answer_lines<R: Threads + Sync, K: Keeper, C: Clock, O: Sink>(
    rt: &R,
    alloc: Global,
    live: &mut Live<K>,
    workers: &mut Workers,
    clock: &C,
    script: &[u8],
    output: &mut O,
) -> Result<(), SinkFault>
    requires { MayAllWait live.old.world workers.old }
    ensures answered { OnOk result (Answers (C.moment clock.now) script.now
        (state_in live.old workers.old (O.state output.old)) (state_in live.new workers.new (O.state output.new))) }
    ensures stopped { IsErrOf result SinkFault.Failed → StopsIn (C.moment clock.now) script.now
        (state_in live.old workers.old (O.state output.old)) (state_in live.new workers.new (O.state output.new)) }
    ensures memory { IsErrOf result SinkFault.NoMemory → StopsShort (C.moment clock.now) script.now
        (state_in live.old workers.old (O.state output.old)) (state_in live.new workers.new (O.state output.new)) }
    ensures later { (O.state output.old).faults ≤ (O.state output.new).faults }
    ensures cause { IsErrOf result SinkFault.Failed → Rose (O.state output.old).faults (O.state output.new).faults }
{
    let mut rest = script;
    while !rest.is_empty() {
        let (line, more) = next_line(rest);
        let now = clock.now();
        let Ok(text) = answer(rt, alloc, live, workers, now, line) else {
            return Err(SinkFault::NoMemory);
        };
        if let Err(fault) = give_all(output, &text) {
            return Err(fault);
        }
        rest = more;
    }
    Ok(())
}
