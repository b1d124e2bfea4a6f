//! Sessions over a connection.
ghost use Rattle.std.specs.Prelude.{◌≡◌, ◌≤◌, None, Err, IfSome, OnOk};
ghost use Rattle.raven_ports.specs.Faults.{Rose};
ghost use Rattle.http_read.specs.Reading.{ReadsNext};
ghost use Rattle.http_session.specs.Sessions.{Finishes};
ghost use Rattle.http_session.specs.Steps.{Gave, NamesEnd, Refuses};

use crate::answering::Answering;
use crate::ends::refuse;
use crate::session::{BEFORE_LAST, give_answer, is_last};
use crate::why::Why;
use http_read::{HttpEnd, HttpReader, HttpRequest};
use raven_ports::{Connection, SinkFault};
use std::alloc::Global;

// Reads the next request, which leaves the sink as it was.
fn next_on<N: Connection>(
    alloc: Global,
    reader: &mut HttpReader,
    conn: &mut N,
) -> Result<HttpRequest, HttpEnd>
    ensures next { reader.old.ended ≡ None → ReadsNext reader.old (N.Source.state conn.old) result reader.new (N.Source.state conn.new) }
    ensures on { OnOk result (reader.new.ended ≡ None) }
    ensures held { (N.Sink.state conn.new).held ≡ (N.Sink.state conn.old).held }
    ensures writes { (N.Sink.state conn.new).faults ≡ (N.Sink.state conn.old).faults }
    ensures later { (N.Source.state conn.old).faults ≤ (N.Source.state conn.new).faults }
    ensures cause { result ≡ Err HttpEnd.ReadFault → reader.old.ended ≡ None → Rose (N.Source.state conn.old).faults (N.Source.state conn.new).faults }
{
    reader.next(alloc, conn)
}

// Asks one request, and gives the response, which leaves the source as it was.
fn answer_on<A: Answering, N: Connection>(
    alloc: Global,
    answerer: &mut A,
    request: &HttpRequest,
    last: bool,
    conn: &mut N,
) -> Result<(), SinkFault>
    requires { A.callable }
    ensures given { Gave A.answers A.keeps answerer.old request.now last (N.Sink.state conn.old).held result answerer.new (N.Sink.state conn.new).held }
    ensures kept { A.keeps answerer.old answerer.new }
    ensures left { (N.Source.state conn.new).left ≡ (N.Source.state conn.old).left }
    ensures reads { (N.Source.state conn.new).faults ≡ (N.Source.state conn.old).faults }
    ensures later { (N.Sink.state conn.old).faults ≤ (N.Sink.state conn.new).faults }
    ensures cause { result ≡ Err SinkFault.Failed → Rose (N.Sink.state conn.old).faults (N.Sink.state conn.new).faults }
{
    give_answer(alloc, answerer, request, last, conn)
}

// Gives the last response, which leaves the source as it was.
fn refuse_on<N: Connection>(alloc: Global, end: HttpEnd, conn: &mut N) -> Why
    ensures refuses { Refuses end (N.Sink.state conn.old).held result (N.Sink.state conn.new).held }
    ensures names { NamesEnd result }
    ensures reads { (N.Source.state conn.new).faults ≡ (N.Source.state conn.old).faults }
    ensures later { (N.Sink.state conn.old).faults ≤ (N.Sink.state conn.new).faults }
    ensures cause { result ≡ Why.WriteFault → Rose (N.Sink.state conn.old).faults (N.Sink.state conn.new).faults }
{
    refuse(alloc, end, conn)
}

/// Answers the requests of a connection one after another, up to one that ends the session. Each response is one piece of bytes.
pub fn serve_conn<A: Answering, N: Connection>(alloc: Global, answerer: &mut A, conn: &mut N) -> Why
    requires { A.callable }
    ensures served { IfSome (N.Source.state conn.old).left (λ bytes. Finishes A.answers A.keeps answerer.old bytes (N.Sink.state conn.old).held result answerer.new (N.Sink.state conn.new).held) }
    ensures kept { A.keeps answerer.old answerer.new }
    ensures names { NamesEnd result }
    ensures reads { (N.Source.state conn.old).faults ≤ (N.Source.state conn.new).faults }
    ensures writes { (N.Sink.state conn.old).faults ≤ (N.Sink.state conn.new).faults }
    ensures read_fault { result ≡ Why.ReadFault → Rose (N.Source.state conn.old).faults (N.Source.state conn.new).faults }
    ensures write_fault { result ≡ Why.WriteFault → Rose (N.Sink.state conn.old).faults (N.Sink.state conn.new).faults }
{
    let Ok(mut reader) = HttpReader::new(alloc) else {
        return Why::NoMemory;
    };
    let mut count = 0;
    'requests: loop {
        let request = match next_on(alloc, &mut reader, conn) {
            Ok(request) => request,
            Err(end) => return refuse_on(alloc, end, conn),
        };
        let last = is_last(count, request.close);
        match answer_on(alloc, answerer, &request, last, conn) {
            Ok(()) => {}
            Err(SinkFault::Failed) => return Why::WriteFault,
            Err(SinkFault::NoMemory) => return Why::NoMemory,
        }
        if count == BEFORE_LAST {
            return Why::Enough;
        }
        if request.close {
            return Why::Closed;
        }
        count += 1;
    }
}
