//! The bytes of responses.
ghost use Rattle.std.specs.Prelude.{◌≡◌, ◌++◌, IfOk, OnOk, length};
ghost use Rattle.std.specs.Fmt.{decimal};
ghost use Rattle.http_parts.specs.Responses as spec;

use http::StatusCode;
use raven_base::{Bytes, NoMemory};
use std::alloc::Global;

fn phrase(status: u16) -> &'static str
    ensures { result.now ≡ spec.phrase status }
{
    match status {
        200 => "OK",
        201 => "Created",
        204 => "No Content",
        400 => "Bad Request",
        404 => "Not Found",
        409 => "Conflict",
        413 => "Payload Too Large",
        415 => "Unsupported Media Type",
        431 => "Request Header Fields Too Large",
        503 => "Service Unavailable",
        507 => "Insufficient Storage",
        _ => "",
    }
}

fn add_number(alloc: Global, text: &mut Bytes, number: u64) -> Result<(), NoMemory>
    ensures { OnOk result (text.new ≡ text.old ++ decimal number) }
{
    let digits = format!(in alloc; "{number}")?;
    text.extend(digits.as_bytes())
}

// The fields on the body, and the body.
fn add_content(alloc: Global, text: &mut Bytes, status: u16, body: &[u8]) -> Result<(), NoMemory>
    ensures { OnOk result (text.new ≡ text.old ++ spec.content status body.now) }
{
    if status == 204 {
        return text.extend(b"\r\n");
    }
    text.extend(b"Content-Length: ")?;
    add_number(alloc, text, body.len() as u64)?;
    text.extend(b"\r\nContent-Type: application/json; charset=utf-8\r\n\r\n")?;
    text.extend(body)?;
    Ok(())
}

fn closing(close: bool) -> &'static str
    ensures { result.now ≡ spec.closing close }
{
    if close { "Connection: close\r\n" } else { "" }
}

/// The bytes of a response. One with status 204 has no body, and `close` says that the connection is closed after it.
pub fn response(
    alloc: Global,
    status: StatusCode,
    close: bool,
    body: &[u8],
) -> Result<Bytes, NoMemory>
    ensures { IfOk result (λ text. text ≡ spec.response status close body.now) }
{
    let mut text = Bytes::new(alloc);
    let status = status.as_u16();
    text.extend(b"HTTP/1.1 ")?;
    add_number(alloc, &mut text, u64::from(status))?;
    text.extend(b" ")?;
    text.extend(phrase(status).as_bytes())?;
    text.extend(b"\r\n")?;
    text.extend(closing(close).as_bytes())?;
    add_content(alloc, &mut text, status, body)?;
    Ok(text)
}
