//! HTTP requests.
use http::Method;
use raven_base::Bytes;
use raven_value::Text;

/// A request and its whole body.
pub struct HttpRequest {
    /// A token, in the case in which it was sent.
    pub method: Method,

    /// The target up to its first `?`.
    pub path: Text,

    /// The target after its first `?`.
    pub query: Text,

    /// The value of the first If-Match, without the quotes around it.
    pub if_match: Option<Text>,

    /// Whether the connection is to be closed after this request: it says so, or is of HTTP/1.0.
    pub close: bool,

    /// The bytes that Content-Length counts, or those of the chunks together; none without either field.
    pub body: Bytes,
}

// Opaque drop: see raven_base.
impl Drop for HttpRequest {
    fn drop(self) {
        let HttpRequest {
            method: _method,
            path: _path,
            query: _query,
            if_match: _if_match,
            close: _close,
            body: _body,
        } = self;
    }
}
