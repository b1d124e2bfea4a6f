//! Reads requests.
ghost use Rattle.std.specs.Prelude.{◌≡◌, ◌≤◌, [], None, Some, length, IfOk, IfSome, OnOk, IfErr};
ghost use Rattle.raven_ports.specs.Faults.{Rose};
ghost use Rattle.http_read.specs.Reading.{ReadsNext, RequestCame, unread};

use crate::body::read_body;
use crate::end::HttpEnd;
use crate::head::{MAX_FIELDS, next_head};
use crate::request::HttpRequest;
use crate::window::Window;
use httparse::spans::{EMPTY_HEADER_SPAN, HeaderSpan};
use raven_base::NoMemory;
use raven_ports::Source;
use std::alloc::Global;
use std::marker::Model;

/// Reads the requests that the bytes of a source hold, one after another.
pub struct HttpReader {
    window: Window,
    headers: Vec<HeaderSpan>,
    ended: Option<HttpEnd>,
}

// Opaque drop: see raven_base.
impl Drop for HttpReader {
    fn drop(self) {
        let HttpReader {
            window: _window,
            headers: _headers,
            ended: _ended,
        } = self;
    }
}

impl Model for HttpReader {
    ghost use Rattle.std.specs.Prelude.{◌≡◌, length};
    ghost use Rattle.http_read.specs.Reading.{Reader};

    ghost Value = { Reader };

    ghost view = { λ a. record { taken = a.window; ended = a.ended } };

    ghost invariant = { λ a. length a.headers.items ≡ 8192 };
}

// Reads the next request.
fn next_request<S: Source>(
    alloc: Global,
    window: &mut Window,
    headers: &mut [HeaderSpan],
    source: &mut S,
) -> Result<HttpRequest, HttpEnd>
    requires { 8192 ≤ length headers.old }
    ensures came { IfSome (unread window.old (S.state source.old).left) (λ bytes. RequestCame bytes result (unread window.new (S.state source.new).left)) }
    ensures later { (S.state source.old).faults ≤ (S.state source.new).faults }
    ensures took { S.took source.old source.new }
    ensures cause { result ≡ Err HttpEnd.ReadFault → Rose ((S.state source.old).faults) ((S.state source.new).faults) }
{
    let head = match next_head(alloc, window, headers, source) {
        Ok(head) => head,
        Err(end) => return Err(end),
    };
    let body = match read_body(alloc, window, head.framing, source) {
        Ok(body) => body,
        Err(end) => return Err(end),
    };
    Ok(HttpRequest {
        method: head.method,
        path: head.path,
        query: head.query,
        if_match: head.if_match,
        close: head.close,
        body,
    })
}

impl HttpReader {
    /// A reader that has taken nothing yet. It has all the memory that it needs, 272 KiB, but for bodies and texts.
    pub fn new(alloc: Global) -> Result<HttpReader, NoMemory>
        ensures { IfOk result (λ r. r ≡ record { taken = []; ended = None }) }
    {
        Ok(HttpReader {
            window: Window::new(alloc)?,
            headers: vec![in alloc; EMPTY_HEADER_SPAN; MAX_FIELDS]?,
            ended: None,
        })
    }

    /// Reads the next request (RFC 9112, sections 2 to 7), or returns why there is none. The bytes after the request are left for the
    /// next call. After an end each call returns that end again, and takes nothing from the source.
    ///
    /// What differs from the standard is in docs/http.md: above all, `Host` is not asked for, only the origin form of a target is
    /// accepted, no trailer is, and lengths are limited.
    pub fn next<S: Source>(&mut self, alloc: Global, source: &mut S) -> Result<HttpRequest, HttpEnd>
        ensures next { self.old.ended ≡ None → ReadsNext self.old (S.state source.old) result self.new (S.state source.new) }
        ensures on { OnOk result (self.new.ended ≡ None) }
        ensures ended { IfErr result (λ end. self.new.ended ≡ Some end) }
        ensures again { IfSome self.old.ended (λ end. (result ≡ Err end) × (self.new ≡ self.old) × (source.new ≡ source.old)) }
        ensures later { (S.state source.old).faults ≤ (S.state source.new).faults }
        ensures took { S.took source.old source.new }
        ensures cause { result ≡ Err HttpEnd.ReadFault → self.old.ended ≡ None → Rose ((S.state source.old).faults) ((S.state source.new).faults) }
    {
        if let Some(end) = self.ended {
            return Err(end);
        }
        match next_request(alloc, &mut self.window, &mut self.headers, source) {
            Ok(request) => Ok(request),
            Err(end) => {
                self.ended = Some(end);
                Err(end)
            }
        }
    }
}
