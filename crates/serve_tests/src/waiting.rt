//! A query that waits for an index which nobody moves.
ghost use Rattle.std.specs.Prelude.{◌≡◌, Some};

use doc_txn::BaseId;
use http_front::asked;
use http_parts::Routes;
use http_read::{HttpReader, HttpRequest};
use raven_base::{Bytes, Numbers, Sequence};
use raven_desk::{Desk, Live, Receipt};
use raven_ports::{ByteSource, Clock, MemKeeper};
use raven_reply::Reply;
use raven_turn::Turn;
use serve_ports::{Gate, Point};
use std::alloc::Global;
use std::sync::Arc;
use std::sync::atomic::AtomicU64;
use std::sync::atomic::Ordering::SeqCst;
use std::test::Fail;
use turn_desk::TurnDesk;

/// A put, and a query that looks three times.
const ASKED: &[u8] =
    b"PUT /databases/db/docs?id=users/1 HTTP/1.1\r\nContent-Length: 50\r\n\r\n{\"Name\":\"Ada\",\"@metadata\":{\"@collection\":\"Users\"}}POST /databases/db/queries HTTP/1.1\r\nContent-Length: 81\r\n\r\n{\"Looks\":3,\"Query\":\"from Users where Name = 'ada'\",\"WaitForNonStaleResults\":true}";

/// A gate that counts the looks of queries that wait, and a clock that counts naps.
#[derive(Drop)]
struct Count(AtomicU64);

impl Gate for Count {
    fn at(&self, point: Point) {
        if let Point::AfterLook = point {
            self.0.fetch_add(1, SeqCst);
        }
    }
}

impl Clock for Count {
    ghost moment = { λ _. Some 0 };

    fn now(&self) -> u64 {
        0
    }

    fn nap(&self) {
        self.0.fetch_add(1, SeqCst);
    }
}

// The receipt has the two looks before the last one. After each of them the gate is told and the clock naps.
#[test]
fn a_query_that_waits_keeps_its_looks(rt: HostRuntime) -> Result<(), Fail> {
    let alloc = rt.alloc();
    let keeper = MemKeeper::of(Sequence::new(alloc), Numbers::new(alloc));
    let Ok(live) = Live::open(alloc, keeper, BaseId::program(alloc)?) else {
        panic!(rt; "an empty database does not open")
    };
    let Ok((turn, pass)) = Turn::new(alloc, live, 1) else {
        panic!(rt; "there is no memory for a turn")
    };
    let clock = Arc::new(alloc, Count(AtomicU64::new(0)))?;
    let gate = Arc::new(alloc, Count(AtomicU64::new(0)))?;
    let mut desk = TurnDesk::new(&turn, pass, Arc::try_clone(&clock)?, Arc::try_clone(&gate)?);
    let mut source = ByteSource::of(Bytes::copied(alloc, ASKED)?, Numbers::new(alloc));
    let mut reader = HttpReader::new(alloc)?;
    let mut looks = Vec::new(alloc);
    for _ in 0..2 {
        let Ok(request) = reader.next(alloc, &mut source) else {
            panic!(rt; "there is no request")
        };
        let receipt = receipt_of(&rt, alloc, &mut desk, &request)?;
        looks.push((receipt.earlier.len(), is_stale(&receipt.reply)))?;
    }
    assert_eq!(rt; looks.as_slice(), [(0, false), (2, true)].as_slice());
    assert_eq!(rt; gate.0.load(SeqCst), 2);
    assert_eq!(rt; clock.0.load(SeqCst), 2);
    Ok(())
}

fn receipt_of<R: Sync, D: Desk<R>>(
    rt: &R,
    alloc: Global,
    desk: &mut D,
    request: &HttpRequest,
) -> Result<Receipt, Fail> {
    let routes = Routes::new(alloc)?;
    match asked(alloc, &routes, "db", request) {
        Ok(asks) => Ok(desk.ask(rt, alloc, asks)?),
        Err(_) => Err(Fail::new("nothing is asked")),
    }
}

fn is_stale(reply: &Reply) -> bool {
    matches!(reply, Reply::Answer { is_stale: true, .. })
}
