//! How the program ends, and what standard error says of that.

use crate::texts::{help_of, overview};
use crate::usage::{Mistake, Verb};
use raven_console::Status;
use raven_ports::KeeperFault;
use sql_keeper::OpenFault;
use std::io;
use std::io::ErrorKind;
use std::process::ExitCode;

/// How the program ended.
#[derive(Drop)]
pub enum End {
    /// The command ended with this status, or there was none.
    Command(Status),

    /// The file of the documents could not be opened.
    NotOpened(OpenFault),

    /// No listener could be made at this port.
    NotListening { port: u16, error: io::Error },

    /// The listener at this port gives no more connections.
    NotAccepting { port: u16 },
}

impl End {
    fn status(&self) -> Status {
        match self {
            End::Command(status) => *status,
            End::NotOpened(fault) => match fault.as_keeper() {
                KeeperFault::NoMemory => Status::NoMemory,
                KeeperFault::Failed => Status::KeptFault,
            },
            End::NotListening { .. } | End::NotAccepting { .. } => Status::DoorFault,
        }
    }
}

// What is said of a status that has nothing else to name. Of Usage it is the mistake in the arguments.
fn sentence_of(status: Status) -> Option<&'static str> {
    match status {
        Status::ReadFault => Some("standard input cannot be read"),
        Status::WriteFault => Some("standard output cannot be written"),
        Status::NoThread => Some("a thread cannot be started"),
        Status::InputTooLarge => Some("the script has more than 16,777,216 bytes"),
        Status::NoMemory => Some("out of memory"),
        Status::Enough => Some("1,000 requests are answered, the most of one session"),
        _ => None,
    }
}

fn explain_status<R: Eprint>(rt: &R, status: Status, file: &str) -> io::Result<()> {
    match status {
        Status::KeptFault => eprintln!(rt; "raven: the documents in {file:?} cannot be read"),
        Status::KeptBad { etag } => {
            eprintln!(rt; "raven: the stored row with etag {etag} in {file:?} is not valid")
        }
        Status::HttpRefused { end } => {
            eprintln!(rt; "raven: the bytes are no further request: {end:?}")
        }
        other => match sentence_of(other) {
            Some(sentence) => eprintln!(rt; "raven: {sentence}"),
            None => Ok(()),
        },
    }
}

fn explain_listening<R: Eprint>(rt: &R, port: u16, error: io::Error) -> io::Result<()> {
    match error.kind() {
        ErrorKind::AddrInUse => {
            eprintln!(rt; "raven: cannot listen on 127.0.0.1:{port}: the port is in use")
        }
        ErrorKind::PermissionDenied => {
            eprintln!(rt; "raven: cannot listen on 127.0.0.1:{port}: no permission")
        }
        _ => eprintln!(rt; "raven: cannot listen on 127.0.0.1:{port}: {error}"),
    }
}

// A path may have any characters, so it is quoted.
fn explain<R: Eprint>(rt: &R, end: &End, file: &str) -> io::Result<()> {
    match end {
        End::Command(status) => explain_status(rt, *status, file),
        End::NotOpened(fault) => eprintln!(rt; "raven: cannot open {file:?}: {fault}"),
        End::NotListening { port, error } => explain_listening(rt, *port, *error),
        End::NotAccepting { port } => {
            eprintln!(rt; "raven: no connection can be accepted on 127.0.0.1:{port}")
        }
    }
}

/// Reports the end: the name of its status, and if there is a cause to name, a second line with it. The file is the one of the
/// arguments. If standard error cannot be written, the exit status alone reports the end.
pub fn ended<R: Eprint>(rt: &R, end: &End, file: Option<&str>) -> ExitCode {
    let status = end.status();
    let _ = eprintln!(rt; "raven: {}", status.name());
    let _ = explain(rt, end, file.unwrap_or(""));
    ExitCode::from(status.number())
}

/// Reports that the arguments are malformed: the help of the command that they name, or which commands there are, and in the last line
/// what is wrong. Without memory there is no help.
pub fn refused<R: AllocGlobal + Eprint>(
    rt: &R,
    verb: Option<Verb>,
    mistake: Option<Mistake<'_>>,
) -> ExitCode {
    let _ = eprintln!(rt; "raven: {}", Status::Usage.name());
    let help = match verb {
        Some(verb) => help_of(rt.alloc(), verb),
        None => overview(rt.alloc()),
    };
    if let Ok(text) = help {
        let _ = eprint!(rt; "{text}");
    }
    if let Some(mistake) = mistake {
        let _ = eprintln!(rt; "raven: {mistake}");
    }
    ExitCode::from(Status::Usage.number())
}
