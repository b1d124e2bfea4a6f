//! A door in memory.
ghost use Rattle.std.specs.Prelude.{◌≡◌, []};
ghost use Rattle.serve_ports.specs.DoorMemory.{doorway};

use crate::calls::Calls;
use crate::door::Door;
use raven_base::{Bytes, Numbers};
use raven_ports::{ByteConn, ByteSink, ByteSource, Failed};
use std::alloc::Global;
use std::marker::Model;
use std::mem::replace;

/// A door at which connections in memory come in. It is closed after the last of them. Its accepts that find it open are the calls
/// that are counted.
#[derive(Drop)]
pub struct MemDoor {
    /// First those that came back, then as many empty ones as are out, then those that are left.
    conns: Vec<ByteConn>,
    returned: usize,
    accepted: usize,
    calls: Calls,
}

impl Model for MemDoor {
    ghost use Rattle.std.specs.Prelude.{◌≤◌, ◌-◌, drop, take, vec_len};
    ghost use Rattle.serve_ports.specs.DoorMemory.{DoorMemory};

    ghost Value = { DoorMemory };

    ghost view = { λ a. record { left = drop a.accepted a.conns.items; back = take a.returned a.conns.items; out = a.accepted - a.returned; calls = a.calls } };

    ghost invariant = { λ a. (a.returned ≤ a.accepted) × (a.accepted ≤ vec_len a.conns) };
}

// A connection without bytes, which takes no memory.
fn empty(alloc: Global) -> ByteConn {
    let input = ByteSource::of(Bytes::new(alloc), Numbers::new(alloc));
    let output = ByteSink::of(Bytes::new(alloc), Numbers::new(alloc));
    ByteConn::of(input, output)
}

impl MemDoor {
    /// A door at which these connections come in. Its calls of the numbers in `fails`, counted from 1, fail. It takes no memory.
    pub fn of(conns: Vec<ByteConn>, fails: Numbers) -> MemDoor
        ensures { result ≡ record { left = conns.items; back = []; out = 0; calls = record { plan = record { fails = fails; calls = 0 }; faults = 0 } } }
    {
        MemDoor {
            conns,
            returned: 0,
            accepted: 0,
            calls: Calls::of(fails),
        }
    }

    /// The connections that are left.
    pub fn left(&self) -> &[ByteConn]
        ensures { result.now ≡ self.now.left }
    {
        &self.conns[self.accepted..]
    }

    /// The connections that came back, in order.
    pub fn back(&self) -> &[ByteConn]
        ensures { result.now ≡ self.now.back }
    {
        &self.conns[..self.returned]
    }
}

impl Door for MemDoor {
    type Conn = ByteConn;

    ghost state = { doorway };

    fn accept(&mut self) -> Result<Option<ByteConn>, Failed> {
        if self.accepted >= self.conns.len() {
            return Ok(None);
        }
        if self.calls.next_fails() {
            return Err(Failed);
        }
        let none = empty(*self.conns.allocator());
        let conn = replace(&mut self.conns[self.accepted], none);
        self.accepted += 1;
        Ok(Some(conn))
    }

    fn done(&mut self, conn: ByteConn) {
        self.conns[self.returned] = conn;
        self.returned += 1;
    }
}
