//! The program `raven_cases`: it reads cases from standard input, runs `raven` as each of them says, and prints what came of it.
#![tactic(auto)]

mod case;
mod clock;
mod fault;
mod marks;
mod printing;
mod reading;
mod running;
mod source;
mod values;

use reading::{ReadError, read_cases};
use running::run_case;
use std::io::{self, BufWriter, ErrorKind, Read, Write};
use std::process::ExitCode;

fn main(rt: HostRuntime) -> io::Result<ExitCode> {
    let alloc = rt.alloc();
    let mut file = Vec::new(alloc);
    rt.reader().read_to_end(&mut file)?;
    let cases = match read_cases(alloc, &file) {
        Ok(cases) => cases,
        Err(ReadError::Mistake { line }) => {
            println!(rt; "mistake in line {line}")?;
            return Ok(ExitCode::FAILURE);
        }
        Err(ReadError::NoMemory) => return Err(ErrorKind::OutOfMemory.into()),
    };
    let mut out = BufWriter::new(alloc, io::writer(&rt))?;
    for case in cases {
        run_case(&rt, case, &mut out)?;
    }
    out.flush()?;
    Ok(ExitCode::SUCCESS)
}
