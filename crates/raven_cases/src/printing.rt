//! What came of a run, as text.
ghost use Rattle.std.specs.Prelude.{◌≤◌, length};

use raven_base::NoMemory;
use raven_console::Status;
use raven_json::write_text;
use raven_ports::KeptRow;
use serve_ports::MemDoor;
use std::alloc::Global;
use std::io::{self, ErrorKind, Write};

/// The error of the program when there is no memory.
pub fn out_of_memory(_error: NoMemory) -> io::Error {
    ErrorKind::OutOfMemory.into()
}

pub fn print_status<W: Write>(out: &mut W, status: Status) -> io::Result<()> {
    write!(out, "status {}", status.name())?;
    match status {
        Status::KeptBad { etag } => write!(out, " {etag}")?,
        Status::NotEmpty { last } => write!(out, " {last}")?,
        Status::HttpRefused { end } => write!(out, " {end:?}")?,
        _ => {}
    }
    writeln!(out)
}

/// Prints what was written to the output: its lines, and what follows the last of them.
pub fn print_written<W: Write>(out: &mut W, written: &[u8]) -> io::Result<()> {
    for line in written.split_inclusive(|byte| *byte == b'\n') {
        if let Some(line) = line.strip_suffix(b"\r\n") {
            print_head_line(out, line)?;
        } else if let Some(line) = line.strip_suffix(b"\n") {
            print_piece(out, b"> ", line)?;
        } else {
            print_piece(out, b"| ", line)?;
        }
    }
    Ok(())
}

fn print_piece<W: Write>(out: &mut W, mark: &[u8], text: &[u8]) -> io::Result<()> {
    out.write_all(mark)?;
    out.write_all(text)?;
    out.write_all(b"\n")
}

/// Prints a line that ends with CR LF. Before it, if it is a status line, stands the body of the response before, which has no line end of its own.
fn print_head_line<W: Write>(out: &mut W, line: &[u8]) -> io::Result<()> {
    let (body, line) = line.split_at(end_of_body(line));
    if !body.is_empty() {
        print_piece(out, b"| ", body)?;
    }
    if line.is_empty() {
        out.write_all(b"<\n")
    } else {
        print_piece(out, b"< ", line)
    }
}

const STATUS_LINE: &[u8] = b"HTTP/1.1 ";

/// Where the last status line in a line begins; 0 if there is none.
fn end_of_body(line: &[u8]) -> usize
    ensures { result ≤ length line.now }
{
    for at in (0..line.len()).rev() {
        if line[at..].starts_with(STATUS_LINE) {
            return at;
        }
    }
    0
}

/// Prints what was written to the connections that came back, in order, and how many are left.
pub fn print_door<W: Write>(out: &mut W, door: &MemDoor) -> io::Result<()> {
    writeln!(out, "door")?;
    for conn in door.back() {
        writeln!(out, "connection")?;
        print_written(out, conn.held())?;
    }
    let left = door.left().len();
    if left > 0 {
        writeln!(out, "left {left}")?;
    }
    Ok(())
}

pub fn print_rows<W: Write>(alloc: Global, out: &mut W, rows: &[KeptRow]) -> io::Result<()> {
    for row in rows {
        print_row(alloc, out, row)?;
    }
    Ok(())
}

fn print_row<W: Write>(alloc: Global, out: &mut W, row: &KeptRow) -> io::Result<()> {
    let mut names = Vec::new(alloc);
    write_text(&mut names, row.id.as_str()).map_err(out_of_memory)?;
    names.push(b' ')?;
    write_text(&mut names, row.collection.as_str()).map_err(out_of_memory)?;
    write!(out, "row {} {} ", row.etag, row.changed)?;
    out.write_all(&names)?;
    match &row.body {
        Some(body) => writeln!(out, " {}", body.as_str()),
        None => writeln!(out, " deleted"),
    }
}
