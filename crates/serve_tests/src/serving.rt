//! Two doors and a pump beside one another.
use crate::conn::TestConn;
use crate::door::TestDoor;
use crate::stage::{Stage, TestClock, TestGate};
use doc_txn::BaseId;
use raven_base::{Bytes, Numbers, Sequence};
use raven_crew::MemCrew;
use raven_ports::{ByteConn, ByteSink, ByteSource, MemKeeper};
use raven_serve::{ServeEnd, Serving, serve};
use raven_value::Text;
use std::alloc::Global;
use std::sync::Arc;
use std::test::Fail;

/// A put, a query that waits, and a read of what was put.
const FIRST: &[u8] =
    b"PUT /databases/db/docs?id=users/1 HTTP/1.1\r\nContent-Length: 50\r\n\r\n{\"Name\":\"Ada\",\"@metadata\":{\"@collection\":\"Users\"}}POST /databases/db/queries HTTP/1.1\r\nContent-Length: 82\r\n\r\n{\"Looks\":64,\"Query\":\"from Users where Name = 'ada'\",\"WaitForNonStaleResults\":true}GET /databases/db/docs?id=users/1 HTTP/1.1\r\n\r\n";

/// A put, which is read only once a pump has read a batch.
const SECOND: &[u8] =
    b"PUT /databases/db/docs?id=users/2 HTTP/1.1\r\nContent-Length: 50\r\n\r\n{\"Name\":\"Ada\",\"@metadata\":{\"@collection\":\"Users\"}}";

/// The query sees both documents.
const FIRST_ANSWERED: &[u8] =
    b"HTTP/1.1 201 Created\r\nContent-Length: 60\r\nContent-Type: application/json; charset=utf-8\r\n\r\n{\"ChangeVector\":\"A:1-AAAAAAAAAAAAAAAAAAAAAA\",\"Id\":\"users/1\"}HTTP/1.1 200 OK\r\nContent-Length: 428\r\nContent-Type: application/json; charset=utf-8\r\n\r\n{\"Includes\":{},\"IndexEtag\":3,\"IndexName\":\"Auto/Users/ByName\",\"IsStale\":false,\"Results\":[{\"@metadata\":{\"@change-vector\":\"A:1-AAAAAAAAAAAAAAAAAAAAAA\",\"@collection\":\"Users\",\"@id\":\"users/1\",\"@last-modified\":\"1970-01-01T00:00:00.0000000Z\"},\"Name\":\"Ada\"},{\"@metadata\":{\"@change-vector\":\"A:3-AAAAAAAAAAAAAAAAAAAAAA\",\"@collection\":\"Users\",\"@id\":\"users/2\",\"@last-modified\":\"1970-01-01T00:00:00.0000000Z\"},\"Name\":\"Ada\"}],\"TotalResults\":2}HTTP/1.1 200 OK\r\nContent-Length: 188\r\nContent-Type: application/json; charset=utf-8\r\n\r\n{\"Includes\":{},\"Results\":[{\"@metadata\":{\"@change-vector\":\"A:1-AAAAAAAAAAAAAAAAAAAAAA\",\"@collection\":\"Users\",\"@id\":\"users/1\",\"@last-modified\":\"1970-01-01T00:00:00.0000000Z\"},\"Name\":\"Ada\"}]}";

const SECOND_ANSWERED: &[u8] =
    b"HTTP/1.1 201 Created\r\nContent-Length: 60\r\nContent-Type: application/json; charset=utf-8\r\n\r\n{\"ChangeVector\":\"A:3-AAAAAAAAAAAAAAAAAAAAAA\",\"Id\":\"users/2\"}";

fn conn(alloc: Global, bytes: &[u8]) -> Result<ByteConn, Fail> {
    let source = ByteSource::of(Bytes::copied(alloc, bytes)?, Numbers::new(alloc));
    let sink = ByteSink::of(Bytes::new(alloc), Numbers::new(alloc));
    Ok(ByteConn::of(source, sink))
}

// A pump has read a batch and holds it while the second connection is answered. Then it brings the index up to both documents, which the query of
// the first connection waits for.
#[test]
fn fronts_and_a_pump_are_beside_one_another(rt: HostRuntime) -> Result<(), Fail> {
    let alloc = rt.alloc();
    let stage = Stage::new(&rt);
    let stage = &stage;
    let mut doors = Vec::new(alloc);
    for (bytes, waits) in [(FIRST, false), (SECOND, true)] {
        doors.push(TestDoor::of(TestConn {
            inner: conn(alloc, bytes)?,
            stage,
            waits,
        }))?;
    }
    let serving = Serving {
        base: BaseId::program(alloc)?,
        name: Text::of(alloc, "db")?,
        pumps: 1,
    };
    let keeper = MemKeeper::of(Sequence::new(alloc), Numbers::new(alloc));
    let clock = Arc::new(alloc, TestClock { stage })?;
    let gate = Arc::new(alloc, TestGate { stage })?;
    let mut crew = MemCrew::of(Numbers::new(alloc));
    let served = serve(&rt, alloc, serving, keeper, clock, gate, doors, &mut crew);
    assert!(rt; matches!(served.end, ServeEnd::Done));
    assert_eq!(rt; served.doors.len(), 2);
    assert_eq!(rt; served.doors[0].written(), Some(FIRST_ANSWERED));
    assert_eq!(rt; served.doors[1].written(), Some(SECOND_ANSWERED));
    Ok(())
}
