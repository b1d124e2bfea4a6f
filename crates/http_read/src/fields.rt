//! The fields of a head.
ghost use Rattle.std.specs.Prelude.{◌≡◌, ◌∷◌, ◌<◌, [], Some, All, IfSome, MatchOption, length, map, codes};
ghost use Rattle.std.specs.Str.{str_to_ascii_lowercase};
ghost use Rattle.httparse.specs.Spans.{header_bytes, IsHeaderWithin};
ghost use Rattle.http_read.specs.Heads as spec;
ghost use Rattle.http_read.specs.Heads.{values};
ghost use Rattle.http_read.specs.Reading.{IsOnly, IsMatchOf, pairs_in};

use crate::end::HttpEnd;
use httparse::spans::HeaderSpan;
use raven_value::{Text, number_of};
use std::alloc::Global;
use std::str;

/// The most digits of a length.
const MAX_LENGTH_DIGITS: usize = 10;

/// How long the body is.
#[derive(Clone, Copy)]
pub enum Framing {
    /// So many bytes.
    Sized(u64),

    /// A list of chunks.
    Chunked,
}

fn is_named(bytes: &[u8], header: &HeaderSpan, name: &[u8]) -> bool
    requires within { IsHeaderWithin (length bytes.now) header.now }
    requires lower { str_to_ascii_lowercase name.now ≡ name.now }
    ensures { result ≡ spec.is_named name.now (header_bytes bytes.now header.now) }
{
    header.name.of(bytes).eq_ignore_ascii_case(name)
}

fn value_of<'b>(bytes: &'b [u8], header: &HeaderSpan) -> &'b [u8]
    requires { IsHeaderWithin (length bytes.now) header.now }
    ensures { result.now ≡ (header_bytes bytes.now header.now).1 }
{
    header.value.of(bytes)
}

/// The value of a field, and the fields after it.
#[derive(Clone, Copy)]
pub(crate) struct Field<'b, 'h> {
    pub(crate) value: &'b [u8],
    pub(crate) rest: &'h [HeaderSpan],
}

/// The first field of this name, which is in lower case.
#[tactic(auto, using(crate::proofs::Named::named))]
pub(crate) fn first_value<'b, 'h>(
    bytes: &'b [u8],
    headers: &'h [HeaderSpan],
    name: &[u8],
) -> Option<Field<'b, 'h>>
    requires within { All (IsHeaderWithin (length bytes.now)) headers.now }
    requires lower { str_to_ascii_lowercase name.now ≡ name.now }
    ensures value { MatchOption result (values name.now (pairs_in bytes.now headers.now) ≡ [])
        (λ f. values name.now (pairs_in bytes.now headers.now) ≡ f.value.now ∷ values name.now (pairs_in bytes.now f.rest.now)) }
    ensures within { IfSome result (λ f. All (IsHeaderWithin (length bytes.now)) f.rest.now) }
    ensures shorter { IfSome result (λ f. length f.rest.now < length headers.now) }
{
    for (i, header) in headers.iter().enumerate() {
        if is_named(bytes, header, name) {
            return Some(Field {
                value: value_of(bytes, header),
                rest: &headers[i + 1..],
            });
        }
    }
    None
}

/// The values of one name.
#[derive(Clone, Copy)]
pub(crate) enum Only<'b> {
    None,
    One(&'b [u8]),
    Several,
}

/// Whether a name has no value, one or several.
fn only_value<'b>(bytes: &'b [u8], headers: &[HeaderSpan], name: &[u8]) -> Only<'b>
    requires within { All (IsHeaderWithin (length bytes.now)) headers.now }
    requires lower { str_to_ascii_lowercase name.now ≡ name.now }
    ensures { IsOnly (values name.now (pairs_in bytes.now headers.now)) result }
{
    let Some(first) = first_value(bytes, headers, name) else {
        return Only::None;
    };
    match first_value(bytes, first.rest, name) {
        None => Only::One(first.value),
        Some(_) => Only::Several,
    }
}

fn of_length(text: &[u8]) -> Option<Framing>
    ensures { result ≡ spec.of_length (spec.number_of text.now) }
{
    match number_of(text, MAX_LENGTH_DIGITS) {
        Some(count) => Some(Framing::Sized(count)),
        None => None,
    }
}

fn of_coding(coding: &[u8]) -> Option<Framing>
    ensures { result ≡ spec.framing_by [] (coding.now ∷ []) }
{
    if coding.eq_ignore_ascii_case(b"chunked") {
        Some(Framing::Chunked)
    } else {
        None
    }
}

/// How long the body is, unless the fields contradict each other.
pub(crate) fn framing_of(bytes: &[u8], headers: &[HeaderSpan]) -> Option<Framing>
    requires { All (IsHeaderWithin (length bytes.now)) headers.now }
    ensures { result ≡ spec.framing_of (pairs_in bytes.now headers.now) }
{
    let length = only_value(bytes, headers, b"content-length");
    let coding = only_value(bytes, headers, b"transfer-encoding");
    match (length, coding) {
        (Only::None, Only::None) => Some(Framing::Sized(0)),
        (Only::One(text), Only::None) => of_length(text),
        (Only::None, Only::One(text)) => of_coding(text),
        _ => None,
    }
}

/// Whether the content has an encoding other than `identity`.
#[tactic(auto, using(crate::proofs::Named::named))]
pub(crate) fn is_encoded(bytes: &[u8], headers: &[HeaderSpan]) -> bool
    requires { All (IsHeaderWithin (length bytes.now)) headers.now }
    ensures { result ≡ spec.is_encoded (pairs_in bytes.now headers.now) }
{
    for header in headers {
        if is_named(bytes, header, b"content-encoding")
            && value_of(bytes, header) != b"identity".as_slice()
        {
            return true;
        }
    }
    false
}

fn is_close(value: &[u8]) -> bool
    ensures { result ≡ spec.is_close value.now }
{
    value.eq_ignore_ascii_case(b"close")
}

/// Whether the connection is to be closed after this request.
#[tactic(auto, using(crate::proofs::Named::named))]
pub(crate) fn is_last(minor: u8, bytes: &[u8], headers: &[HeaderSpan]) -> bool
    requires { All (IsHeaderWithin (length bytes.now)) headers.now }
    ensures { result ≡ spec.is_last minor (pairs_in bytes.now headers.now) }
{
    if minor == 0 {
        return true;
    }
    for header in headers {
        if is_named(bytes, header, b"connection") && is_close(value_of(bytes, header)) {
            return true;
        }
    }
    false
}

// The text without the quotes around it, if it has both.
fn unquoted(text: &str) -> &str
    ensures { result.now ≡ spec.unquoted text.now }
{
    let bytes = text.as_bytes();
    let len = bytes.len();
    if len >= 2 && bytes[0] == b'"' && bytes[len - 1] == b'"' {
        &text[1..len - 1]
    } else {
        text
    }
}

/// The value of the first If-Match, without quotes.
pub(crate) fn if_match_of(
    alloc: Global,
    bytes: &[u8],
    headers: &[HeaderSpan],
) -> Result<Option<Text>, HttpEnd>
    requires { All (IsHeaderWithin (length bytes.now)) headers.now }
    ensures { IsMatchOf (spec.if_match_of (pairs_in bytes.now headers.now)) result }
{
    let Some(field) = first_value(bytes, headers, b"if-match") else {
        return Ok(None);
    };
    let Ok(text) = str::from_utf8(field.value) else {
        return Err(HttpEnd::BadHead);
    };
    match Text::of(alloc, unquoted(text)) {
        Ok(text) => Ok(Some(text)),
        Err(_) => Err(HttpEnd::NoMemory),
    }
}
