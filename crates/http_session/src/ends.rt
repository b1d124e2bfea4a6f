//! The last response, to bytes that are no request.
ghost use Rattle.std.specs.Prelude.{◌≡◌, ◌≢◌, ◌≤◌, IfOk, None, OnErr};
ghost use Rattle.raven_ports.specs.Faults.{Rose};
ghost use Rattle.spec_http.specs.Answers.{response_to_end};
ghost use Rattle.http_session.specs.Steps as steps;

use crate::why::Why;
use http::StatusCode;
use http_parts::response;
use http_read::HttpEnd;
use raven_base::{Bytes, NoMemory};
use raven_ports::{Sink, SinkFault, give_all};
use std::alloc::Global;

/// The response to bytes that are no request, after which the connection is closed, if they have one. An end without one needs no memory.
pub fn answer_to_end(alloc: Global, end: HttpEnd) -> Result<Option<Bytes>, NoMemory>
    ensures answer { IfOk result (λ text. text ≡ response_to_end end) }
    ensures silent { OnErr result (response_to_end end ≢ None) }
{
    match end {
        HttpEnd::BadHead => {
            let body = b"{\"Error\":\"BadHead\"}";
            let text = response(alloc, StatusCode::BAD_REQUEST, true, body)?;
            Ok(Some(text))
        }
        HttpEnd::HeadTooLarge => {
            let body = b"{\"Error\":\"HeadTooLarge\"}";
            let status = StatusCode::REQUEST_HEADER_FIELDS_TOO_LARGE;
            Ok(Some(response(alloc, status, true, body)?))
        }
        HttpEnd::BodyTooLarge => {
            let body = b"{\"Error\":\"BodyTooLarge\"}";
            let text = response(alloc, StatusCode::PAYLOAD_TOO_LARGE, true, body)?;
            Ok(Some(text))
        }
        HttpEnd::Encoded => {
            let body = b"{\"Error\":\"Encoded\"}";
            let status = StatusCode::UNSUPPORTED_MEDIA_TYPE;
            Ok(Some(response(alloc, status, true, body)?))
        }
        HttpEnd::BadChunk => {
            let body = b"{\"Error\":\"BadChunk\"}";
            let text = response(alloc, StatusCode::BAD_REQUEST, true, body)?;
            Ok(Some(text))
        }
        HttpEnd::Ended | HttpEnd::Truncated | HttpEnd::ReadFault | HttpEnd::NoMemory => Ok(None),
    }
}

// Why the session ends after an end without a response.
fn why_silent(end: HttpEnd) -> Why
    ensures { result ≡ steps.why_silent end }
{
    match end {
        HttpEnd::Ended => Why::Ended,
        HttpEnd::ReadFault => Why::ReadFault,
        HttpEnd::NoMemory => Why::NoMemory,
        other => Why::Http(other),
    }
}

// Why the session ends after an end with a response, of which this became.
fn why_after(end: HttpEnd, given: Result<(), SinkFault>) -> Why
    ensures { result ≡ steps.why_after end given }
{
    match given {
        Ok(()) => Why::Http(end),
        Err(SinkFault::Failed) => Why::WriteFault,
        Err(SinkFault::NoMemory) => Why::NoMemory,
    }
}

/// Gives the response to bytes that are no request, if they have one.
#[tactic(auto, using(crate::proofs::LastResponse::refusing))]
pub(crate) fn refuse<O: Sink>(alloc: Global, end: HttpEnd, sink: &mut O) -> Why
    ensures refuses { steps.Refuses end (O.state sink.old).held result (O.state sink.new).held }
    ensures names { steps.NamesEnd result }
    ensures later { (O.state sink.old).faults ≤ (O.state sink.new).faults }
    ensures gave { O.gave sink.old sink.new }
    ensures cause { result ≡ Why.WriteFault → Rose (O.state sink.old).faults (O.state sink.new).faults }
{
    let Ok(answer) = answer_to_end(alloc, end) else {
        return Why::NoMemory;
    };
    let Some(text) = answer else {
        return why_silent(end);
    };
    let given = give_all(sink, text.as_slice());
    why_after(end, given)
}
