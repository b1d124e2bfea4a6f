//! The connections of a door, one after another.
ghost use Rattle.raven_serve.specs.Chains.{Runs};

use crate::next::{Next, serve_next};
use http_session::Answering;
use serve_ports::Door;
use std::alloc::Global;
use std::sync::Wait;

/// Serves the connections of a door one after another, until it is closed or fails. Returns whether it failed.
pub(crate) fn calls<R: Wait, A: Answering, D: Door>(
    rt: &R,
    alloc: Global,
    answerer: &mut A,
    door: &mut D,
) -> bool
    requires { A.callable }
    ensures runs { Runs A.answers A.keeps answerer.old (D.state door.old) result answerer.new (D.state door.new) }
    ensures kept { A.keeps answerer.old answerer.new }
{
    for _ in rt.forever() {
        match serve_next(alloc, answerer, door) {
            Next::Served(_) => {}
            Next::Closed => return false,
            Next::DoorFault => return true,
        }
    }
    unreachable!()
}
