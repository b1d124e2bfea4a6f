//! Chunk lines, and the line ends after chunks.
ghost use Rattle.std.specs.Prelude.{◌≡◌, ◌≤◌, take, IfSome};
ghost use Rattle.raven_ports.specs.Faults.{Rose};
ghost use Rattle.http_read.specs.Bodies.{max_line};
ghost use Rattle.http_read.specs.Reading.{unread, IsLineStatus, LineFits, end_status_of, LineCame, EndCame};

use crate::end::HttpEnd;
use crate::window::Window;
use httparse::{Status, parse_chunk_size};
use raven_ports::Source;

/// The longest chunk line with its line end, in bytes.
const MAX_LINE: usize = 64;

/// What the first bytes of a chunk line are.
enum LineStatus {
    /// A line of so many bytes that states this size.
    Whole(usize, u64),

    /// They may become a line.
    Partial,

    /// They cannot become a line.
    Bad,
}

// What the next bytes are.
fn line_status(window: &Window) -> LineStatus
    ensures status { IsLineStatus (take max_line window.now) result }
    ensures fits { LineFits window.now result }
{
    let bytes = window.prefix(MAX_LINE);
    match parse_chunk_size(bytes) {
        Ok(Status::Complete((len, size))) => LineStatus::Whole(len, size),
        Ok(Status::Partial) => LineStatus::Partial,
        Err(_) => LineStatus::Bad,
    }
}

/// What the first bytes after a chunk are.
enum EndStatus {
    /// CR LF.
    Whole,

    /// They may become CR LF.
    Partial,

    /// They cannot become CR LF.
    Bad,
}

// What the next bytes are.
fn end_status(window: &Window) -> EndStatus
    ensures { result ≡ end_status_of window.now }
{
    match window.as_slice() {
        [] => EndStatus::Partial,
        [first] => {
            if *first == b'\r' {
                EndStatus::Partial
            } else {
                EndStatus::Bad
            }
        }
        [first, second, ..] => {
            if *first != b'\r' || *second != b'\n' {
                EndStatus::Bad
            } else {
                EndStatus::Whole
            }
        }
    }
}

/// Reads the next chunk line, and returns the size that it states.
pub(crate) fn read_line<S: Source>(window: &mut Window, source: &mut S) -> Result<u64, HttpEnd>
    ensures came { IfSome (unread window.old (S.state source.old).left) (λ bytes. LineCame bytes result (unread window.new (S.state source.new).left)) }
    ensures later { (S.state source.old).faults ≤ (S.state source.new).faults }
    ensures took { S.took source.old source.new }
    ensures cause { result ≡ Err HttpEnd.ReadFault → Rose ((S.state source.old).faults) ((S.state source.new).faults) }
{
    'more: loop {
        match line_status(window) {
            LineStatus::Whole(len, size) => {
                window.skip(len);
                return Ok(size);
            }
            LineStatus::Bad => return Err(HttpEnd::BadChunk),
            LineStatus::Partial => {}
        }
        if window.len() >= MAX_LINE {
            return Err(HttpEnd::BadChunk);
        }
        match window.fill(source) {
            Err(_) => return Err(HttpEnd::ReadFault),
            Ok(0) => return Err(HttpEnd::Truncated),
            Ok(_) => {}
        }
    }
}

/// Reads the CR LF after the bytes of a chunk.
pub(crate) fn read_end<S: Source>(window: &mut Window, source: &mut S) -> Result<(), HttpEnd>
    ensures came { IfSome (unread window.old (S.state source.old).left) (λ bytes. EndCame bytes result (unread window.new (S.state source.new).left)) }
    ensures later { (S.state source.old).faults ≤ (S.state source.new).faults }
    ensures took { S.took source.old source.new }
    ensures cause { result ≡ Err HttpEnd.ReadFault → Rose ((S.state source.old).faults) ((S.state source.new).faults) }
{
    'more: loop {
        match end_status(window) {
            EndStatus::Whole => {
                window.skip(2);
                return Ok(());
            }
            EndStatus::Bad => return Err(HttpEnd::BadChunk),
            EndStatus::Partial => {}
        }
        match window.fill(source) {
            Err(_) => return Err(HttpEnd::ReadFault),
            Ok(0) => return Err(HttpEnd::Truncated),
            Ok(_) => {}
        }
    }
}
