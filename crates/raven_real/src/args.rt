//! The arguments that the program was called with.
use std::rt::Env;
use std::{env, io};

/// The arguments after the name of the program. One that is no UTF-8 is an error.
pub fn arguments<R: Env + AllocGlobal>(rt: &R) -> io::Result<Vec<String>> {
    let mut arguments = Vec::new(rt.alloc());
    for argument in env::args(rt)?.skip(1) {
        arguments.push(argument)?;
    }
    Ok(arguments)
}
