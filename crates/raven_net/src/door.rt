//! A TCP listener as where connections come in.
//!
//! A program makes one [`Listening`], and from it the doors. From then on clients can connect, so it is then that it prints one line
//! with the port: `println!(rt; "listening on 127.0.0.1:{}", listening.port()?)?`.
ghost use Rattle.std.specs.Prelude.{None};

use crate::conn::RealConn;
use raven_ports::Failed;
use serve_ports::Door;
use std::io;
use std::net::{Ipv4Addr, Net, SocketAddr, TcpListener, TcpStream};
use std::sync::atomic::AtomicU64;
use std::sync::atomic::Ordering::SeqCst;
use std::thread::sleep;
use std::time::{Clock as SystemClock, Duration};

/// How often an accept that failed is tried again, before the door has failed.
const TRIES: u32 = 100;

/// How long a door waits before it tries again, in milliseconds: what is short, such as descriptors of files, may come back.
const PAUSE: u64 = 100;

/// A TCP listener on the loopback address, at which several doors accept connections, each in a thread of its own.
#[derive(Drop)]
pub struct Listening {
    listener: TcpListener,
    /// How many connections are accepted in all; no limit if there is none.
    most: Option<u32>,
    /// How often a door was about to accept one.
    begun: AtomicU64,
    /// How many doors wait for a connection.
    waiting: AtomicU64,
}

impl Listening {
    /// Listens on this port of the loopback address, or on a free one if it is 0. Its doors are closed once so many connections
    /// were accepted in all, or never.
    pub fn on_loopback<R: Net<Listener = TcpListener, Stream = TcpStream>>(
        rt: &R,
        port: u16,
        most: Option<u32>,
    ) -> io::Result<Listening> {
        let address = SocketAddr::from((Ipv4Addr::LOCALHOST, port));
        Ok(Listening {
            listener: TcpListener::bind(rt, address)?,
            most,
            begun: AtomicU64::new(0),
            waiting: AtomicU64::new(0),
        })
    }

    /// The port that it listens on.
    pub fn port(&self) -> io::Result<u16> {
        Ok(self.listener.local_addr()?.port())
    }

    // Whether one more connection may be accepted. It is counted before it is accepted, so that no door waits for one that another
    // door has accepted.
    fn begins(&self) -> bool {
        match self.most {
            Some(most) => self.begun.fetch_add(1, SeqCst) < u64::from(most),
            None => true,
        }
    }

    // The connection that was counted was not accepted.
    fn gives_up(&self) {
        if self.most.is_some() {
            self.begun.fetch_sub(1, SeqCst);
        }
    }

    /// Whether each door serves a connection, and a further connection would be accepted.
    pub(crate) fn is_full(&self) -> bool {
        let has_more = match self.most {
            Some(most) => self.begun.load(SeqCst) < u64::from(most),
            None => true,
        };
        has_more && self.waiting.load(SeqCst) == 0
    }

    // Waits for a connection, and counts as a door that waits meanwhile.
    fn accept(&self) -> io::Result<TcpStream> {
        self.waiting.fetch_add(1, SeqCst);
        let accepted = self.listener.accept();
        self.waiting.fetch_sub(1, SeqCst);
        let (stream, _) = accepted?;
        Ok(stream)
    }

    // Waits for a connection. Clients that are gone again are passed over.
    fn next<R: SystemClock>(&self, rt: &R) -> Result<RealConn<'_>, Failed> {
        for _ in 0..TRIES {
            match self.accept() {
                Ok(stream) => {
                    if let Ok(conn) = RealConn::of(stream, self) {
                        return Ok(conn);
                    }
                }
                Err(error) if error.kind() == io::ErrorKind::ConnectionAborted => {}
                Err(_) => sleep(rt, Duration::from_millis(PAUSE)),
            }
        }
        Err(Failed)
    }
}

/// A door at a listener that it shares with other doors.
#[derive(Drop)]
pub struct TcpDoor<'a, R: SystemClock> {
    rt: &'a R,
    listening: &'a Listening,
    closed: bool,
    faults: u64,
}

impl<'a, R: SystemClock> TcpDoor<'a, R> {
    /// A door at this listener. At the end of a connection it asks the clock how long it has lasted.
    pub fn at(rt: &'a R, listening: &'a Listening) -> Self {
        TcpDoor {
            rt,
            listening,
            closed: false,
            faults: 0,
        }
    }
}

impl<'a, R: SystemClock> Door for TcpDoor<'a, R> {
    type Conn = RealConn<'a>;

    ghost state = { λ d. record { left = None; back = None; out = None; plan = None; closed = d.closed; faults = d.faults } };

    fn accept(&mut self) -> Result<Option<RealConn<'a>>, Failed> {
        if self.closed || !self.listening.begins() {
            self.closed = true;
            return Ok(None);
        }
        match self.listening.next(self.rt) {
            Ok(conn) => Ok(Some(conn)),
            Err(Failed) => {
                self.listening.gives_up();
                self.faults = self.faults.saturating_add(1);
                Err(Failed)
            }
        }
    }

    fn done(&mut self, conn: RealConn<'a>) {
        conn.end(self.rt);
    }
}
