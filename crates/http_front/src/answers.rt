//! Responses.
ghost use Rattle.std.specs.Prelude.{◌≡◌, ◌++◌, IfOk, codes};
ghost use Rattle.spec_http.specs.Answers as spec;
ghost use Rattle.raven_reply.specs.ReplyView.{reply_view};
ghost use Rattle.http_front.specs.Answered.{AnswersRefusal};

use crate::refusal::HttpRefusal;
use crate::status::status_of;
use http::StatusCode;
use http_parts::response;
use raven_base::{Bytes, NoMemory};
use raven_reply::{Reply, reply_text};
use raven_request::reply_to_refusal;
use std::alloc::Global;

// A document as the only one of a list of results.
fn listed(alloc: Global, document: &[u8]) -> Result<Bytes, NoMemory>
    ensures { IfOk result (λ body. body ≡ codes "{\"Includes\":{},\"Results\":[" ++ (document.now ++ codes "]}")) }
{
    let mut body = Bytes::new(alloc);
    body.extend(b"{\"Includes\":{},\"Results\":[")?;
    body.extend(document)?;
    body.extend(b"]}")?;
    Ok(body)
}

#[tactic(auto, using(crate::proofs::Bodies::bodies))]
fn body_of(alloc: Global, reply: &Reply) -> Result<Bytes, NoMemory>
    ensures { IfOk result (λ body. body ≡ spec.body_of (reply_view reply.now)) }
{
    let text = reply_text(alloc, reply)?;
    match reply {
        Reply::Document { .. } => listed(alloc, &text),
        _ => Ok(Bytes::of(text)),
    }
}

/// The response with this reply. `close` says that the connection is closed after it.
pub fn answer(alloc: Global, reply: &Reply, close: bool) -> Result<Bytes, NoMemory>
    ensures { IfOk result (λ bytes. bytes ≡ spec.response_to close (reply_view reply.now)) }
{
    let body = body_of(alloc, reply)?;
    response(alloc, status_of(reply), close, body.as_slice())
}

/// The response to a request that asks nothing of the database.
#[tactic(auto, using(crate::proofs::Bodies::errors))]
pub fn answer_to_refusal(
    alloc: Global,
    refusal: HttpRefusal,
    close: bool,
) -> Result<Bytes, NoMemory>
    ensures { IfOk result (λ bytes. AnswersRefusal refusal close bytes) }
{
    match refusal {
        HttpRefusal::NoRoute => {
            response(
                alloc,
                StatusCode::NOT_FOUND,
                close,
                b"{\"Error\":\"NoRoute\"}",
            )
        }
        HttpRefusal::NoDatabase => {
            response(
                alloc,
                StatusCode::NOT_FOUND,
                close,
                b"{\"Error\":\"NoDatabase\"}",
            )
        }
        HttpRefusal::Unread(why) => answer(alloc, &reply_to_refusal(why)?, close),
    }
}
