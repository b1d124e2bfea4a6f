//! The command `run` without a file: a program over `raven_run` alone, which is quick to build and to try.
#![tactic(auto)]

use doc_txn::BaseId;
use raven_base::{Numbers, Sequence};
use raven_ports::MemKeeper;
use raven_real::{RealClock, RealSink, RealSource};
use raven_run::{Ran, RunEnd, run};
use std::io;
use std::process::ExitCode;
use std::thread::Threads;
use std::time::Clock;

fn end_of<R: AllocGlobal + Input + Print + Clock + Threads + Sync>(rt: &R) -> RunEnd {
    let alloc = rt.alloc();
    let Ok(base) = BaseId::program(alloc) else {
        return RunEnd::NoMemory;
    };
    let mut input = RealSource::new(rt.reader());
    let mut output = RealSink::new(io::writer(rt));
    let keeper = MemKeeper::of(Sequence::new(alloc), Numbers::new(alloc));
    let clock = RealClock::new(rt);
    let Ran {
        end,
        keeper: _keeper,
    } = run(rt, alloc, base, &mut input, &mut output, keeper, &clock);
    end
}

fn name_of(end: RunEnd) -> &'static str {
    match end {
        RunEnd::Done => "Done",
        RunEnd::ReadFault => "ReadFault",
        RunEnd::WriteFault => "WriteFault",
        RunEnd::KeptFault => "KeptFault",
        RunEnd::KeptBad { .. } => "KeptBad",
        RunEnd::InputTooLarge => "InputTooLarge",
        RunEnd::NoMemory => "NoMemory",
    }
}

fn main(rt: HostRuntime) -> ExitCode {
    let end = end_of(&rt);
    // If standard error cannot be written, the exit status alone reports the end.
    let _ = eprintln!(rt; "raven: {}", name_of(end));
    match end {
        RunEnd::Done => ExitCode::SUCCESS,
        _ => ExitCode::FAILURE,
    }
}
