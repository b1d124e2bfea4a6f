//! Cases, run and printed.
use crate::case::{Case, CaseDoor, Ends, Run};
use crate::printing::{out_of_memory, print_door, print_rows, print_status, print_written};
use crate::source::CaseSource;
use raven_base::Bytes;
use raven_console::{Finish, raven};
use raven_crew::MemCrew;
use raven_ports::{ByteConn, ByteSink, ByteSource, MemKeeper};
use serve_ports::{MemDoor, OpenGate};
use std::alloc::Global;
use std::io::{self, ErrorKind, Write};
use std::sync::{Arc, Wait};
use std::thread::Threads;

/// Runs a case, and prints what came of it.
pub fn run_case<R: AllocGlobal + Threads + Wait + Sync, W: Write>(
    rt: &R,
    case: Case,
    out: &mut W,
) -> io::Result<()> {
    writeln!(out, "== {}", case.name)?;
    let mut keeper = case.keeper;
    let mut is_first = true;
    for run in case.runs {
        if !is_first {
            writeln!(out, "again")?;
        }
        is_first = false;
        keeper = print_run(rt, run, keeper, out)?;
    }
    writeln!(out)
}

/// The two ends, in memory.
fn devices(alloc: Global, ends: Ends) -> (ByteSource, ByteSink) {
    let Ends {
        reads,
        writes,
        bytes,
    } = ends;
    let source = ByteSource::of(Bytes::of(bytes), reads);
    (source, ByteSink::of(Bytes::new(alloc), writes))
}

/// The doors, in memory.
fn doors_of(alloc: Global, doors: Vec<CaseDoor>) -> io::Result<Vec<MemDoor>> {
    let mut all = Vec::new(alloc);
    for CaseDoor { accepts, conns } in doors {
        let mut here = Vec::new(alloc);
        for ends in conns {
            let (source, sink) = devices(alloc, ends);
            here.push(ByteConn::of(source, sink))?;
        }
        all.push(MemDoor::of(here, accepts))?;
    }
    Ok(all)
}

/// Runs once. What was written is in the sink.
fn run_once<R: AllocGlobal + Threads + Wait + Sync>(
    rt: &R,
    run: Run,
    keeper: MemKeeper,
) -> io::Result<(Finish<MemKeeper, MemDoor>, ByteSink)> {
    let Run {
        arguments,
        clock,
        ends,
        gives,
        crew,
        doors,
        shows_rows: _,
    } = run;
    let alloc = rt.alloc();
    let (bytes, mut output) = devices(alloc, ends);
    let mut input = CaseSource { bytes, most: gives };
    let mut crew = MemCrew::of(crew);
    let finish = raven(
        rt,
        &arguments,
        &mut input,
        &mut output,
        keeper,
        Arc::new(alloc, clock)?,
        doors_of(alloc, doors)?,
        &mut crew,
        Arc::new(alloc, OpenGate)?,
    );
    Ok((finish, output))
}

/// Runs once, prints what came of it, and returns the keeper.
fn print_run<R: AllocGlobal + Threads + Wait + Sync, W: Write>(
    rt: &R,
    run: Run,
    keeper: MemKeeper,
    out: &mut W,
) -> io::Result<MemKeeper> {
    let alloc = rt.alloc();
    let shows_rows = run.shows_rows;
    let (finish, output) = run_once(rt, run, keeper)?;
    let Finish {
        status,
        keeper,
        doors,
    } = finish;
    print_status(out, status)?;
    print_written(out, output.held())?;
    for door in &doors {
        print_door(out, door)?;
    }
    // It is lost only if a server runs out of memory.
    let keeper = keeper.ok_or(ErrorKind::OutOfMemory)?;
    if shows_rows {
        let rows = keeper.rows(alloc).map_err(out_of_memory)?;
        print_rows(alloc, out, rows.as_slice())?;
    }
    Ok(keeper)
}
