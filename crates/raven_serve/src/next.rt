//! One connection of a door.
ghost use Rattle.raven_serve.specs.Chains.{ServesNext};

use http_session::{Answering, Why, serve_conn};
use serve_ports::Door;
use std::alloc::Global;

/// What came of the next connection of a door.
#[derive(Clone, Copy)]
pub enum Next {
    /// One came in, a session was served over it, which ended so, and it was handed back.
    Served(Why),

    /// The door is closed.
    Closed,

    /// The door failed.
    DoorFault,
}

/// Accepts the next connection of a door, serves a session over it, and hands it back. A fault of the connection ends its session
/// alone.
pub fn serve_next<A: Answering, D: Door>(alloc: Global, answerer: &mut A, door: &mut D) -> Next
    requires { A.callable }
    ensures next { ServesNext A.answers A.keeps result answerer.old (D.state door.old) answerer.new (D.state door.new) }
    ensures kept { A.keeps answerer.old answerer.new }
{
    match door.accept() {
        Ok(Some(mut conn)) => {
            let why = serve_conn(alloc, answerer, &mut conn);
            door.done(conn);
            Next::Served(why)
        }
        Ok(None) => Next::Closed,
        Err(_) => Next::DoorFault,
    }
}
