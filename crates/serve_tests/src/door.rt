//! A door of one connection.
ghost use Rattle.std.specs.Prelude.{None};

use crate::conn::TestConn;
use raven_ports::Failed;
use serve_ports::Door;
use std::process::Abort;

/// A door of one connection, which is closed once it was asked for a second one.
#[derive(Drop)]
pub struct TestDoor<'a, 'r, R: Abort> {
    left: Option<TestConn<'a, 'r, R>>,
    back: Option<TestConn<'a, 'r, R>>,
    closed: bool,
}

impl<'a, 'r, R: Abort> TestDoor<'a, 'r, R> {
    pub fn of(conn: TestConn<'a, 'r, R>) -> TestDoor<'a, 'r, R> {
        TestDoor {
            left: Some(conn),
            back: None,
            closed: false,
        }
    }

    /// What was written to the connection, if it came back.
    pub fn written(&self) -> Option<&[u8]> {
        let conn = self.back.as_ref()?;
        Some(conn.inner.held())
    }
}

impl<'a, 'r, R: Abort> Door for TestDoor<'a, 'r, R> {
    type Conn = TestConn<'a, 'r, R>;

    ghost state = { λ d. record { left = None; back = None; out = None; plan = None; closed = d.closed; faults = 0 } };

    fn accept(&mut self) -> Result<Option<TestConn<'a, 'r, R>>, Failed> {
        if self.closed {
            return Ok(None);
        }
        let next = self.left.take();
        self.closed = next.is_none();
        Ok(next)
    }

    fn done(&mut self, conn: TestConn<'a, 'r, R>) {
        self.back = Some(conn);
    }
}
