//! Where connections come in.
ghost use Rattle.std.specs.Prelude.{MatchOption, MatchResult};
ghost use Rattle.serve_ports.specs.Doors.{Accepts, Doorway, Fails, FindsClosed, IsOneOut, TakesBack, ends};

use raven_ports::{Connection, Failed};

/// Where connections come in, one after another, until it is closed.
pub trait Door: Drop {
    type Conn: Connection + Drop;

    /// Its connections and which of its calls fail, if it reports them, whether it is closed, and how often it has failed.
    ghost state: { Self → Doorway };

    /// Accepts the next connection, or returns `None`, exactly if the door is closed. It may wait until one comes in.
    fn accept(&mut self) -> Result<Option<Self::Conn>, Failed>
        ensures { MatchResult result
            (λ found. MatchOption found (FindsClosed (state self.old) (state self.new))
            (λ conn. Accepts (state self.old) (ends (Self.Conn.Source.state conn) (Self.Conn.Sink.state conn)) (state self.new)))
            (λ _. Fails (state self.old) (state self.new)) };

    /// Takes back a connection that it has accepted. It takes no memory. A real door ends the connection.
    fn done(&mut self, conn: Self::Conn)
        requires { IsOneOut (state self.old) }
        ensures { TakesBack (state self.old) (ends (Self.Conn.Source.state conn) (Self.Conn.Sink.state conn)) (state self.new) };
}
