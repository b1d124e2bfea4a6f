//! Sessions over a source and a sink.
ghost use Rattle.std.specs.Prelude.{◌≡◌, ◌≤◌, Err, IfSome};
ghost use Rattle.raven_ports.specs.Faults.{Rose};
ghost use Rattle.http_session.specs.Sessions as sessions;
ghost use Rattle.http_session.specs.Steps.{Gave, NamesEnd};

use crate::answering::Answering;
use crate::ends::refuse;
use crate::why::Why;
use http_read::{HttpReader, HttpRequest};
use raven_ports::{Sink, SinkFault, Source, give_all};
use std::alloc::Global;

/// The most requests of a session, without the last.
pub(crate) const BEFORE_LAST: usize = 999;

/// Asks one request, and gives the response.
#[tactic(auto, using(crate::proofs::Responses::giving))]
pub(crate) fn give_answer<A: Answering, O: Sink>(
    alloc: Global,
    answerer: &mut A,
    request: &HttpRequest,
    last: bool,
    sink: &mut O,
) -> Result<(), SinkFault>
    requires { A.callable }
    ensures given { Gave A.answers A.keeps answerer.old request.now last (O.state sink.old).held result answerer.new (O.state sink.new).held }
    ensures kept { A.keeps answerer.old answerer.new }
    ensures later { (O.state sink.old).faults ≤ (O.state sink.new).faults }
    ensures gave { O.gave sink.old sink.new }
    ensures cause { result ≡ Err SinkFault.Failed → Rose (O.state sink.old).faults (O.state sink.new).faults }
{
    let Ok(text) = answerer.ask(alloc, request, last) else {
        return Err(SinkFault::NoMemory);
    };
    give_all(sink, text.as_slice())
}

/// Whether the session ends with a request, after so many others.
pub(crate) fn is_last(count: usize, close: bool) -> bool
    ensures { result ≡ sessions.is_last count close }
{
    count == BEFORE_LAST || close
}

/// Answers the requests of a source one after another, up to one that ends the session. Each response is one piece of bytes.
pub fn serve<A: Answering, S: Source, O: Sink>(
    alloc: Global,
    answerer: &mut A,
    source: &mut S,
    sink: &mut O,
) -> Why
    requires { A.callable }
    ensures served { IfSome (S.state source.old).left (λ bytes. sessions.Finishes A.answers A.keeps answerer.old bytes (O.state sink.old).held result answerer.new (O.state sink.new).held) }
    ensures kept { A.keeps answerer.old answerer.new }
    ensures names { NamesEnd result }
    ensures reads { (S.state source.old).faults ≤ (S.state source.new).faults }
    ensures writes { (O.state sink.old).faults ≤ (O.state sink.new).faults }
    ensures read_fault { result ≡ Why.ReadFault → Rose (S.state source.old).faults (S.state source.new).faults }
    ensures write_fault { result ≡ Why.WriteFault → Rose (O.state sink.old).faults (O.state sink.new).faults }
{
    let Ok(mut reader) = HttpReader::new(alloc) else {
        return Why::NoMemory;
    };
    let mut count = 0;
    'requests: loop {
        let request = match reader.next(alloc, source) {
            Ok(request) => request,
            Err(end) => return refuse(alloc, end, sink),
        };
        let last = is_last(count, request.close);
        match give_answer(alloc, answerer, &request, last, sink) {
            Ok(()) => {}
            Err(SinkFault::Failed) => return Why::WriteFault,
            Err(SinkFault::NoMemory) => return Why::NoMemory,
        }
        if count == BEFORE_LAST {
            return Why::Enough;
        }
        if request.close {
            return Why::Closed;
        }
        count += 1;
    }
}
