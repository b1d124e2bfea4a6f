//! A TCP connection as where bytes come from and go to. It does not report its contents.
ghost use Rattle.std.specs.Prelude.{◌≤◌, IfSome, None, length};

use crate::door::Listening;
use raven_ports::{Connection, Failed, Sink, SinkFault, Source};
use std::io;
use std::io::{Read, Write};
use std::net::{Shutdown, TcpStream};
use std::time::{Clock as SystemClock, Duration};

/// How long a write waits until the client takes what was written, in seconds. So a client that does nothing holds a thread for no
/// longer.
const PATIENCE: u64 = 10;

/// A read waits for the client in pieces of so many milliseconds. After each it looks whether other clients wait for a door.
const PIECE: u64 = 200;

/// How many pieces a read waits at most: 10 seconds.
const MOST_PIECES: u32 = 50;

/// How many pieces a new connection is kept for its first request, though no door is free: 1 second.
const FIRST_PIECES: u32 = 5;

/// How many pieces it is kept for each further request.
const NEXT_PIECES: u32 = 1;

/// How long the bytes of a client that still sends are read at the end of its connection, in seconds.
const LAST_READS: u64 = 2;

/// How many reads are made of them.
const MOST_LAST_READS: u32 = 4096;

/// How many bytes each of these reads takes.
const LAST_READ: usize = 4096;

/// A TCP connection. A call fails if the system's call does, and if the client does nothing for 10 seconds. Between two requests a
/// read also fails if no door is free for other clients, so a client that keeps its connection does not hold up the others.
#[derive(Drop)]
pub struct RealConn<'a> {
    stream: TcpStream,
    listening: &'a Listening,
    /// Between two requests, how many pieces the connection is kept if no door is free.
    spare: Option<u32>,
    failed_reads: u64,
    failed_writes: u64,
}

impl<'a> RealConn<'a> {
    /// The connection over this stream, which sends each piece at once.
    pub(crate) fn of(stream: TcpStream, listening: &'a Listening) -> io::Result<RealConn<'a>> {
        stream.set_nodelay(true)?;
        stream.set_read_timeout(Some(Duration::from_millis(PIECE)))?;
        stream.set_write_timeout(Some(Duration::from_secs(PATIENCE)))?;
        Ok(RealConn {
            stream,
            listening,
            spare: Some(FIRST_PIECES),
            failed_reads: 0,
            failed_writes: 0,
        })
    }

    /// Ends the connection: the client sees the end of the bytes, and what it still sends is read and dropped, for about 2 seconds
    /// and at most 16 MiB. If it were closed at once, the system would drop the connection of a client that still sends, and such a
    /// client often loses what was written to it last. After a read that failed there is nothing left to wait for.
    pub(crate) fn end<R: SystemClock>(self, rt: &R) {
        let RealConn {
            mut stream,
            failed_reads,
            ..
        } = self;
        if stream.shutdown(Shutdown::Write).is_ok() && failed_reads == 0 {
            read_last(rt, &mut stream);
        }
    }
}

// Waits for bytes. None if the read failed, the client was silent for too long, or the connection gives way.
fn read_some(
    stream: &mut TcpStream,
    listening: &Listening,
    spare: Option<u32>,
    buf: &mut [u8],
) -> Option<usize>
    ensures { IfSome result (λ count. count ≤ length buf.old) }
{
    for waited in 1..=MOST_PIECES {
        match stream.read(buf) {
            Ok(count) => return Some(count),
            Err(error) if is_late(&error) && !gives_way(listening, spare, waited) => {}
            Err(_) => return None,
        }
    }
    None
}

// Whether a connection that has waited for so many pieces is wanted for other clients.
fn gives_way(listening: &Listening, spare: Option<u32>, waited: u32) -> bool {
    match spare {
        Some(kept) => kept <= waited && listening.is_full(),
        None => false,
    }
}

// Whether a read ended since nothing came in its time.
fn is_late(error: &io::Error) -> bool {
    let kind = error.kind();
    kind == io::ErrorKind::WouldBlock || kind == io::ErrorKind::TimedOut
}

// Reads until the client closes the connection, or one of the limits is reached.
fn read_last<R: SystemClock>(rt: &R, stream: &mut TcpStream) {
    let patience = Duration::from_secs(LAST_READS);
    let Ok(start) = rt.monotonic() else {
        return;
    };
    if stream.set_read_timeout(Some(patience)).is_err() {
        return;
    }
    let mut bytes = [0; LAST_READ];
    for _ in 0..MOST_LAST_READS {
        match stream.read(&mut bytes) {
            Ok(count) if count > 0 => {}
            _ => return,
        }
        match rt.monotonic() {
            Ok(now) if now.saturating_sub(start) < patience => {}
            _ => return,
        }
    }
}

impl<'a> Source for RealConn<'a> {
    ghost use Rattle.std.specs.Prelude.{◌≡◌, refl};
    ghost use Rattle.std.proofs.Common.{◌∙◌};

    ghost state = { λ s. record { left = None; faults = s.failed_reads } };

    ghost took = { λ s t. t.failed_writes ≡ s.failed_writes };

    ghost took_none = { λ _. refl };

    ghost took_more = { λ _ _ _ first second. second ∙ first };

    fn take(&mut self, buf: &mut [u8]) -> Result<usize, Failed> {
        match read_some(&mut self.stream, self.listening, self.spare, buf) {
            Some(count) => {
                self.spare = None;
                Ok(count)
            }
            None => {
                self.failed_reads = self.failed_reads.saturating_add(1);
                Err(Failed)
            }
        }
    }
}

impl<'a> Sink for RealConn<'a> {
    ghost use Rattle.std.specs.Prelude.{◌≡◌, refl};
    ghost use Rattle.std.proofs.Common.{◌∙◌};

    ghost state = { λ s. record { held = None; faults = s.failed_writes } };

    ghost gave = { λ s t. t.failed_reads ≡ s.failed_reads };

    ghost gave_none = { λ _. refl };

    ghost gave_more = { λ _ _ _ first second. second ∙ first };

    fn give(&mut self, bytes: &[u8]) -> Result<usize, SinkFault> {
        match self.stream.write(bytes) {
            Ok(count) if 0 < count => {
                self.spare = Some(NEXT_PIECES);
                Ok(count)
            }
            _ => {
                self.failed_writes = self.failed_writes.saturating_add(1);
                Err(SinkFault::Failed)
            }
        }
    }
}

impl<'a> Connection for RealConn<'a> {
    ghost use Rattle.std.proofs.Common.{ap};
    ghost use Rattle.std.specs.Prelude.{None, ℕ};
    ghost use Rattle.raven_ports.specs.States.{SinkState, SourceState};

    ghost taking = { λ x y same. ap (λ (n : ℕ). record { held = None; faults = n }) same };

    ghost giving = { λ x y same. ap (λ (n : ℕ). record { left = None; faults = n }) same };
}
