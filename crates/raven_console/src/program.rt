//! The program.
ghost use Rattle.std.specs.Prelude.{◌≡◌, ◌⊎◌, Some, None, IfSome, map, option_map, string_bytes};
ghost use Rattle.raven_ports.specs.Faults.{Rose};
ghost use Rattle.raven_run.specs.Runs.{devices_of};
ghost use Rattle.raven_console.specs.ArgumentsView.{serve_view};
ghost use Rattle.raven_console.specs.Ends.{AsksForSession, AsksToMeasure, AsksToRun, AsksToServe, EndsAsAsked, IsUnopened, MayLose, ServesAsAsked, ServesSo};
ghost use Rattle.raven_console.specs.Invocations.{invoked_in};
ghost use Rattle.raven_console.specs.Statuses.{status_of_measurement, status_of_run, status_of_server, status_of_session};

use crate::options::{Counts, HttpOptions, Invocation, ServeOptions, invoked};
use crate::status::Status;
use http_desk::{ServeEnd, Served, Serving, serve_input};
use raven_base::NoMemory;
use raven_crew::Crew;
use raven_measure::{MeasureEnd, Measurement, measure};
use raven_ports::{Clock, Keeper, Sink, Source};
use raven_run::{Ran, RunEnd, run};
use raven_serve as server;
use serve_ports::{Door, Gate};
use std::sync::{Arc, Wait};
use std::thread::Threads;

/// How the program ended, and the keeper and the doors that it was called with.
#[derive(Drop)]
pub struct Finish<K, D> {
    pub status: Status,

    /// The keeper. It is lost only if a server runs out of memory.
    pub keeper: Option<K>,

    /// The doors, in their order. They are lost only with the keeper.
    pub doors: Vec<D>,
}

fn run_status(end: RunEnd) -> Status
    ensures { result ≡ status_of_run end }
{
    match end {
        RunEnd::Done => Status::Done,
        RunEnd::ReadFault => Status::ReadFault,
        RunEnd::WriteFault => Status::WriteFault,
        RunEnd::KeptFault => Status::KeptFault,
        RunEnd::KeptBad { etag } => Status::KeptBad { etag },
        RunEnd::InputTooLarge => Status::InputTooLarge,
        RunEnd::NoMemory => Status::NoMemory,
    }
}

fn measure_status(end: MeasureEnd) -> Status
    ensures { result ≡ status_of_measurement end }
{
    match end {
        MeasureEnd::Done => Status::Done,
        MeasureEnd::WriteFault => Status::WriteFault,
        MeasureEnd::KeptFault => Status::KeptFault,
        MeasureEnd::KeptBad { etag } => Status::KeptBad { etag },
        MeasureEnd::NotEmpty { last } => Status::NotEmpty { last },
        MeasureEnd::NoMemory => Status::NoMemory,
    }
}

fn session_status(end: ServeEnd) -> Status
    ensures { result ≡ status_of_session end }
{
    match end {
        ServeEnd::Done => Status::Done,
        ServeEnd::ReadFault => Status::ReadFault,
        ServeEnd::WriteFault => Status::WriteFault,
        ServeEnd::KeptFault => Status::KeptFault,
        ServeEnd::KeptBad { etag } => Status::KeptBad { etag },
        ServeEnd::Refused { end } => Status::HttpRefused { end },
        ServeEnd::Enough => Status::Enough,
        ServeEnd::NoMemory => Status::NoMemory,
    }
}

fn server_status(end: server::ServeEnd) -> Status
    ensures { result ≡ status_of_server end }
{
    match end {
        server::ServeEnd::Done => Status::Done,
        server::ServeEnd::DoorFault => Status::DoorFault,
        server::ServeEnd::NoThread => Status::NoThread,
        server::ServeEnd::KeptFault => Status::KeptFault,
        server::ServeEnd::KeptBad { etag } => Status::KeptBad { etag },
        server::ServeEnd::NoMemory => Status::NoMemory,
    }
}

fn finished<K, D>(status: Status, keeper: K, doors: Vec<D>) -> Finish<K, D>
    ensures { result ≡ record { status = status; keeper = Some keeper; doors = doors } }
{
    let keeper = Some(keeper);
    Finish {
        status,
        keeper,
        doors,
    }
}

// The command `serve`.
#[tactic(auto, using(crate::proofs::Truth::truths))]
fn served<
    R: AllocGlobal + Threads + Wait + Sync,
    K: Keeper + Send + Drop,
    C: Clock + Send + Sync + Drop,
    D: Door + Send + Drop,
    W: Crew,
    G: Gate + Send + Sync + Drop,
>(
    rt: &R,
    options: ServeOptions,
    keeper: K,
    clock: Arc<C>,
    doors: Vec<D>,
    crew: &mut W,
    gate: Arc<G>,
) -> Finish<K, D>
where
    D::Conn: Send,
    ensures serves { ServesSo (serve_view options) result.status (record {
      clock = C.moment clock.value;
      keeper = K.state keeper;
      doors = map D.state doors.items;
      keeper_left = option_map K.state result.keeper;
      doors_left = map D.state result.doors.items;
    }) }
    ensures refused { result.status ≡ Status.NoThread → Rose (W.state crew.old).faults (W.state crew.new).faults }
    ensures begun { result.status ≡ Status.Done → (W.state crew.new).faults ≡ (W.state crew.old).faults }
{
    let ServeOptions {
        file: _file,
        base,
        name,
        counts,
    } = options;
    let Counts { pumps, .. } = counts;
    let serving = server::Serving { base, name, pumps };
    let server::Served { end, keeper, doors } = server::serve(
        rt,
        rt.alloc(),
        serving,
        keeper,
        clock,
        gate,
        doors,
        crew,
    );
    Finish {
        status: server_status(end),
        keeper,
        doors,
    }
}

/// The program. Its arguments are a command and then pairs of a name and a value, in any order and each name at most once: `run` with `--data` and
/// `--id`; `http` with these, `--db` and `--pump`; `serve` with `--data`, `--id`, `--db`, `--port`, `--workers`, `--pumps` and `--connections`; or
/// `measure` with `--seed`, `--docs` and `--batch`. Which file `--data` names, and where the doors are, is the caller's to see to.
///
/// What the status says is in `EndsAsAsked` and, of `serve`, in `ServesAsAsked`: of malformed arguments that nothing was done, and else that the command
/// ended so, as `run`, `serve_input`, `serve` and `measure` say.
#[tactic(auto, using(crate::proofs::Truth::truths))]
pub fn raven<
    R: AllocGlobal + Threads + Wait + Sync,
    S: Source,
    O: Sink,
    K: Keeper + Send + Drop,
    C: Clock + Send + Sync + Drop,
    D: Door + Send + Drop,
    W: Crew,
    G: Gate + Send + Sync + Drop,
>(
    rt: &R,
    arguments: &[String],
    input: &mut S,
    output: &mut O,
    keeper: K,
    clock: Arc<C>,
    doors: Vec<D>,
    crew: &mut W,
    gate: Arc<G>,
) -> Finish<K, D>
where
    D::Conn: Send,
    ensures ends { IfSome result.keeper (λ k. EndsAsAsked result.status (record {
      arguments = map string_bytes arguments.now;
      clock = C.moment clock.value;
      before = devices_of (S.state input.old) (O.state output.old) (K.state keeper);
      after = devices_of (S.state input.new) (O.state output.new) (K.state k);
    })) }
    ensures serves { ServesAsAsked (invoked_in (map string_bytes arguments.now)) result.status (record {
      clock = C.moment clock.value;
      keeper = K.state keeper;
      doors = map D.state doors.items;
      keeper_left = option_map K.state result.keeper;
      doors_left = map D.state result.doors.items;
    }) }
    ensures untouched { result.status ≡ Status.Usage
        → (input.new ≡ input.old) × ((output.new ≡ output.old) × ((result.keeper ≡ Some keeper) × (result.doors.items ≡ doors.items))) }
    ensures unwritten { AsksToRun (invoked_in (map string_bytes arguments.now)) → (result.status ≡ Status.ReadFault) ⊎ (result.status ≡ Status.InputTooLarge)
        → (output.new ≡ output.old) × (result.keeper ≡ Some keeper) }
    ensures unopened { IsUnopened (invoked_in (map string_bytes arguments.now)) result.status
        → (output.new ≡ output.old) × IfSome result.keeper (λ k. (K.state k).held ≡ (K.state keeper).held) }
    ensures unread { AsksToMeasure (invoked_in (map string_bytes arguments.now)) → input.new ≡ input.old }
    ensures unserved { AsksForSession (invoked_in (map string_bytes arguments.now)) → IsUnopened (invoked_in (map string_bytes arguments.now)) result.status
        → input.new ≡ input.old }
    ensures silent { AsksToServe (invoked_in (map string_bytes arguments.now)) → (input.new ≡ input.old) × (output.new ≡ output.old) }
    ensures refused { result.status ≡ Status.NoThread → Rose (W.state crew.old).faults (W.state crew.new).faults }
    ensures begun { result.status ≡ Status.Done → (W.state crew.new).faults ≡ (W.state crew.old).faults }
    ensures back { result.keeper ≡ None → MayLose (invoked_in (map string_bytes arguments.now)) result.status }
{
    let alloc = rt.alloc();
    match invoked(alloc, arguments) {
        Ok(Some(Invocation::Run(options))) => {
            let base = options.base;
            let Ran { end, keeper } = run(rt, alloc, base, input, output, keeper, &*clock);
            finished(run_status(end), keeper, doors)
        }
        Ok(Some(Invocation::Measure(options))) => {
            let Measurement { end, keeper } = measure(rt, alloc, &options, output, keeper, &*clock);
            finished(measure_status(end), keeper, doors)
        }
        Ok(Some(Invocation::Http(options))) => {
            let HttpOptions {
                file: _file,
                base,
                name,
                pump,
            } = options;
            let serving = Serving { base, name, pump };
            let Served { end, keeper } = serve_input(
                rt, alloc, serving, input, output, keeper, clock,
            );
            finished(session_status(end), keeper, doors)
        }
        Ok(Some(Invocation::Serve(options))) => {
            served(rt, options, keeper, clock, doors, crew, gate)
        }
        Ok(None) => finished(Status::Usage, keeper, doors),
        Err(NoMemory) => finished(Status::NoMemory, keeper, doors),
    }
}
