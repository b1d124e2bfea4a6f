//! The heads of requests.
ghost use Rattle.std.specs.Prelude.{◌≡◌, ◌≤◌, true, length, All, IfOk, IfSome};
ghost use Rattle.std.specs.List.{after_first, before_first, list_all};
ghost use Rattle.raven_ports.specs.Faults.{Rose};
ghost use Rattle.httparse.specs.Grammar.{IsToken};
ghost use Rattle.httparse.specs.Spans.{IsHeaderWithin, IsWithin, span_bytes};
ghost use Rattle.http_read.specs.Heads.{max_head, is_question_mark, is_visible};
ghost use Rattle.http_read.specs.Reading.{IsHeadStatus, IsHeadOf, IsHeadRead, HeadCame, pairs_in, unread};

use crate::end::HttpEnd;
use crate::fields::{Framing, framing_of, if_match_of, is_encoded, is_last};
use crate::target::has_bad_target;
use crate::window::{MAX_HEAD, Window};
use http::method::{Method, MethodError};
use httparse::Status;
use httparse::spans::{HeaderSpan, RequestSpans, parse_request};
use raven_base::NoMemory;
use raven_ports::Source;
use raven_value::Text;
use std::alloc::Global;
use std::str;

/// Room for more fields than the longest head can have, since each takes two bytes at least.
pub(crate) const MAX_FIELDS: usize = 8_192;

/// What a head says, and how many bytes it has.
#[derive(Drop)]
pub(crate) struct Head {
    pub(crate) method: Method,
    pub(crate) path: Text,
    pub(crate) query: Text,
    pub(crate) if_match: Option<Text>,
    pub(crate) close: bool,
    pub(crate) framing: Framing,
    pub(crate) len: usize,
}

/// What the first bytes are.
enum HeadStatus {
    /// A head of these parts.
    Whole(RequestSpans),

    /// They may become a head.
    Partial,

    /// They cannot become a head, or the target is bad.
    Bad,
}

// What the first bytes are, and the spans of their fields.
fn head_status(bytes: &[u8], headers: &mut [HeaderSpan]) -> HeadStatus
    requires room { 8192 ≤ length headers.old }
    requires short { length bytes.now ≤ max_head }
    ensures { IsHeadStatus bytes.now headers.new result }
{
    if has_bad_target(bytes) {
        return HeadStatus::Bad;
    }
    match parse_request(bytes, headers) {
        Ok(Status::Complete(spans)) => HeadStatus::Whole(spans),
        Ok(Status::Partial) => HeadStatus::Partial,
        Err(_) => HeadStatus::Bad,
    }
}

fn method_of(alloc: Global, bytes: &[u8]) -> Result<Method, NoMemory>
    requires { IsToken bytes.now }
    ensures { IfOk result (λ method. method ≡ bytes.now) }
{
    match Method::from_bytes(alloc, bytes) {
        Ok(method) => Ok(method),
        Err(MethodError::OutOfMemory) => Err(NoMemory),
        Err(MethodError::Invalid) => unreachable!("a token is a method"),
    }
}

fn text_of(bytes: &[u8]) -> &str
    requires { list_all is_visible bytes.now ≡ true }
    ensures { result.now ≡ bytes.now }
{
    match str::from_utf8(bytes) {
        Ok(text) => text,
        Err(_) => unreachable!("visible bytes are text"),
    }
}

// The path and the query of a target.
fn parts_of(target: &str) -> (&str, &str)
    ensures path { result.0.now ≡ before_first is_question_mark target.now }
    ensures query { result.1.now ≡ after_first is_question_mark target.now }
{
    target.split_once('?').unwrap_or((target, ""))
}

// What the head of these parts says.
fn head_of(
    alloc: Global,
    bytes: &[u8],
    headers: &[HeaderSpan],
    spans: RequestSpans,
) -> Result<Head, HttpEnd>
    requires headers { All (IsHeaderWithin (length bytes.now)) headers.now }
    requires method { IsWithin (length bytes.now) spans.method }
    requires token { IsToken (span_bytes bytes.now spans.method) }
    requires path { IsWithin (length bytes.now) spans.path }
    requires visible { list_all is_visible (span_bytes bytes.now spans.path) ≡ true }
    ensures { IsHeadOf bytes.now (pairs_in bytes.now headers.now) spans result }
{
    let if_match = match if_match_of(alloc, bytes, headers) {
        Ok(if_match) => if_match,
        Err(end) => return Err(end),
    };
    let Some(framing) = framing_of(bytes, headers) else {
        return Err(HttpEnd::BadHead);
    };
    if is_encoded(bytes, headers) {
        return Err(HttpEnd::Encoded);
    }
    let Ok(method) = method_of(alloc, spans.method.of(bytes)) else {
        return Err(HttpEnd::NoMemory);
    };
    let (path, query) = parts_of(text_of(spans.path.of(bytes)));
    let Ok(path) = Text::of(alloc, path) else {
        return Err(HttpEnd::NoMemory);
    };
    let Ok(query) = Text::of(alloc, query) else {
        return Err(HttpEnd::NoMemory);
    };
    Ok(Head {
        method,
        path,
        query,
        if_match,
        close: is_last(spans.version, bytes, headers),
        framing,
        len: spans.len,
    })
}

// The head at the beginning of the bytes, or none if they may become one.
fn read_head(
    alloc: Global,
    bytes: &[u8],
    headers: &mut [HeaderSpan],
) -> Result<Option<Head>, HttpEnd>
    requires room { 8192 ≤ length headers.old }
    requires short { length bytes.now ≤ max_head }
    ensures { IsHeadRead bytes.now result }
{
    match head_status(bytes, headers) {
        HeadStatus::Partial => Ok(None),
        HeadStatus::Bad => Err(HttpEnd::BadHead),
        HeadStatus::Whole(spans) => match head_of(alloc, bytes, &headers[..spans.headers], spans) {
            Ok(head) => Ok(Some(head)),
            Err(end) => Err(end),
        },
    }
}

/// Reads the next head.
pub(crate) fn next_head<S: Source>(
    alloc: Global,
    window: &mut Window,
    headers: &mut [HeaderSpan],
    source: &mut S,
) -> Result<Head, HttpEnd>
    requires { 8192 ≤ length headers.old }
    ensures came { IfSome (unread window.old (S.state source.old).left) (λ bytes. HeadCame bytes result (unread window.new (S.state source.new).left)) }
    ensures later { (S.state source.old).faults ≤ (S.state source.new).faults }
    ensures took { S.took source.old source.new }
    ensures cause { result ≡ Err HttpEnd.ReadFault → Rose ((S.state source.old).faults) ((S.state source.new).faults) }
{
    'more: loop {
        match read_head(alloc, window.as_slice(), headers) {
            Ok(Some(head)) => {
                window.skip(head.len);
                return Ok(head);
            }
            Ok(None) => {}
            Err(end) => return Err(end),
        }
        let len = window.len();
        if len == MAX_HEAD {
            return Err(HttpEnd::HeadTooLarge);
        }
        match window.fill(source) {
            Err(_) => return Err(HttpEnd::ReadFault),
            Ok(0) => {
                if len == 0 {
                    return Err(HttpEnd::Ended);
                }
                return Err(HttpEnd::Truncated);
            }
            Ok(_) => {}
        }
    }
}
