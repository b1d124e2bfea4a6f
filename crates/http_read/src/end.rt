//! Why there is no next request.

/// Why there is no next request.
#[derive(Clone, Copy, Debug, PartialEq, Eq)]
pub enum HttpEnd {
    /// The bytes end before the first byte of a request.
    Ended,

    /// The bytes cannot become a head, or the head breaks a rule on targets, lengths, transfer codings or If-Match.
    BadHead,

    /// The first 16,384 bytes have no complete head.
    HeadTooLarge,

    /// The body is longer than 4,194,304 bytes.
    BodyTooLarge,

    /// The content has an encoding other than `identity`.
    Encoded,

    /// A chunk, the line before it or what follows it is malformed, or there is a trailer.
    BadChunk,

    /// The bytes end inside a request.
    Truncated,

    /// The source failed.
    ReadFault,

    /// Out of memory.
    NoMemory,
}
