//! Why sessions end.
use http_read::HttpEnd;

/// Why a session ended.
#[derive(Clone, Copy, Debug, PartialEq, Eq)]
pub enum Why {
    /// The source ended between two requests.
    Ended,

    /// The last request asked for it, or was of HTTP/1.0, and was answered.
    Closed,

    /// The bytes are no further request, or end inside one.
    Http(HttpEnd),

    /// The source failed.
    ReadFault,

    /// The sink failed.
    WriteFault,

    /// 1,000 requests were answered.
    Enough,

    /// Out of memory.
    NoMemory,
}
