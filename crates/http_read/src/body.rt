//! The bodies of requests.
ghost use Rattle.std.specs.Prelude.{◌≡◌, ◌+◌, ◌≤◌, length, IfOk, IfSome, OnOk};
ghost use Rattle.raven_ports.specs.Faults.{Rose};
ghost use Rattle.http_read.specs.Bodies.{IsBody, IsChunks, max_body, sized};
ghost use Rattle.http_read.specs.Reading.{unread, BytesCame, ChunkCame, BodyCame};

use crate::end::HttpEnd;
use crate::fields::Framing;
use crate::line::{read_end, read_line};
use crate::window::Window;
use raven_base::Bytes;
use raven_ports::Source;
use std::alloc::Global;

/// The longest body, in bytes.
const MAX_BODY: usize = 4_194_304;

// Reads so many bytes, and adds them to the body.
fn read_bytes<S: Source>(
    window: &mut Window,
    count: usize,
    body: &mut Bytes,
    source: &mut S,
) -> Result<(), HttpEnd>
    ensures grows { OnOk result (length body.new ≡ length body.old + count) }
    ensures came { IfSome (unread window.old (S.state source.old).left) (λ bytes. BytesCame count bytes body.old result body.new (unread window.new (S.state source.new).left)) }
    ensures later { (S.state source.old).faults ≤ (S.state source.new).faults }
    ensures took { S.took source.old source.new }
    ensures cause { result ≡ Err HttpEnd.ReadFault → Rose ((S.state source.old).faults) ((S.state source.new).faults) }
{
    let mut missing = count;
    'more: loop {
        let part = window.prefix(missing);
        let taken = part.len();
        let Ok(()) = body.extend(part) else {
            return Err(HttpEnd::NoMemory);
        };
        window.skip(taken);
        missing -= taken;
        if missing == 0 {
            return Ok(());
        }
        match window.fill(source) {
            Err(_) => return Err(HttpEnd::ReadFault),
            Ok(0) => return Err(HttpEnd::Truncated),
            Ok(_) => {}
        }
    }
}

// Reads a body of so many bytes.
fn read_sized<S: Source>(
    alloc: Global,
    window: &mut Window,
    count: u64,
    source: &mut S,
) -> Result<Bytes, HttpEnd>
    ensures came { IfSome (unread window.old (S.state source.old).left) (λ bytes. BodyCame (λ found. found ≡ sized count bytes) result (unread window.new (S.state source.new).left)) }
    ensures later { (S.state source.old).faults ≤ (S.state source.new).faults }
    ensures took { S.took source.old source.new }
    ensures cause { result ≡ Err HttpEnd.ReadFault → Rose ((S.state source.old).faults) ((S.state source.new).faults) }
{
    if count > MAX_BODY as u64 {
        return Err(HttpEnd::BodyTooLarge);
    }
    let mut body = Bytes::new(alloc);
    match read_bytes(window, count as usize, &mut body, source) {
        Ok(()) => Ok(body),
        Err(end) => Err(end),
    }
}

// Reads a chunk, adds its bytes to the body, and returns how many there were.
fn read_chunk<S: Source>(
    window: &mut Window,
    body: &mut Bytes,
    source: &mut S,
) -> Result<u64, HttpEnd>
    requires { length body.old ≤ max_body }
    ensures grows { IfOk result (λ size. (length body.new ≡ length body.old + size) × (length body.new ≤ max_body)) }
    ensures came { IfSome (unread window.old (S.state source.old).left) (λ bytes. ChunkCame bytes body.old result body.new (unread window.new (S.state source.new).left)) }
    ensures later { (S.state source.old).faults ≤ (S.state source.new).faults }
    ensures took { S.took source.old source.new }
    ensures cause { result ≡ Err HttpEnd.ReadFault → Rose ((S.state source.old).faults) ((S.state source.new).faults) }
{
    let size = match read_line(window, source) {
        Ok(size) => size,
        Err(end) => return Err(end),
    };
    if size > (MAX_BODY - body.len()) as u64 {
        return Err(HttpEnd::BodyTooLarge);
    }
    match read_bytes(window, size as usize, body, source) {
        Ok(()) => {}
        Err(end) => return Err(end),
    }
    match read_end(window, source) {
        Ok(()) => Ok(size),
        Err(end) => Err(end),
    }
}

// Reads chunks up to one of size 0.
fn read_chunks<S: Source>(
    alloc: Global,
    window: &mut Window,
    source: &mut S,
) -> Result<Bytes, HttpEnd>
    ensures came { IfSome (unread window.old (S.state source.old).left) (λ bytes. BodyCame (IsChunks 0 bytes) result (unread window.new (S.state source.new).left)) }
    ensures later { (S.state source.old).faults ≤ (S.state source.new).faults }
    ensures took { S.took source.old source.new }
    ensures cause { result ≡ Err HttpEnd.ReadFault → Rose ((S.state source.old).faults) ((S.state source.new).faults) }
{
    let mut body = Bytes::new(alloc);
    'chunks: loop {
        match read_chunk(window, &mut body, source) {
            Ok(0) => return Ok(body),
            Ok(_) => {}
            Err(end) => return Err(end),
        }
    }
}

/// Reads the body after a head.
pub(crate) fn read_body<S: Source>(
    alloc: Global,
    window: &mut Window,
    framing: Framing,
    source: &mut S,
) -> Result<Bytes, HttpEnd>
    ensures came { IfSome (unread window.old (S.state source.old).left) (λ bytes. BodyCame (IsBody framing bytes) result (unread window.new (S.state source.new).left)) }
    ensures later { (S.state source.old).faults ≤ (S.state source.new).faults }
    ensures took { S.took source.old source.new }
    ensures cause { result ≡ Err HttpEnd.ReadFault → Rose ((S.state source.old).faults) ((S.state source.new).faults) }
{
    match framing {
        Framing::Sized(count) => read_sized(alloc, window, count, source),
        Framing::Chunked => read_chunks(alloc, window, source),
    }
}
