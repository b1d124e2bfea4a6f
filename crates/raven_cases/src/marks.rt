//! The marks of a value, written out: `⟨0d⟩` as bytes, `⟨512*a⟩` as copies, and `⟨n⟩` as the number of a line.
ghost use Rattle.std.specs.Prelude.{◌<◌, IfOk};

use crate::fault::LineFault;
use crate::values::number_in;
use std::alloc::Global;

/// How many copies of a text are added at once if there are many, since millions would take long one by one.
const BLOCK: u64 = 4096;

/// Adds a value to bytes, with its marks written out. `⟨n⟩` stands for the number, and is a mistake if there is none.
pub fn write_out(
    alloc: Global,
    out: &mut Vec<u8>,
    value: &str,
    number: Option<u64>,
) -> Result<(), LineFault> {
    let mut pieces = value.split('⟨');
    if let Some(plain) = pieces.next() {
        write_plain(out, plain)?;
    }
    for piece in pieces {
        let (mark, plain) = piece.split_once('⟩').ok_or(LineFault::Mistake)?;
        write_mark(alloc, out, mark, number)?;
        write_plain(out, plain)?;
    }
    Ok(())
}

fn write_plain(out: &mut Vec<u8>, text: &str) -> Result<(), LineFault> {
    if text.contains('⟩') {
        return Err(LineFault::Mistake);
    }
    out.extend_from_slice(text.as_bytes())?;
    Ok(())
}

fn write_mark(
    alloc: Global,
    out: &mut Vec<u8>,
    mark: &str,
    number: Option<u64>,
) -> Result<(), LineFault> {
    if mark == "n" {
        let number = number.ok_or(LineFault::Mistake)?;
        out.extend_from_slice(number.to_string(alloc)?.as_bytes())?;
        return Ok(());
    }
    match mark.split_once('*') {
        Some((count, text)) => write_copies(alloc, out, number_in(count)?, text),
        None => write_hex(out, mark),
    }
}

fn write_copies(alloc: Global, out: &mut Vec<u8>, count: u64, text: &str) -> Result<(), LineFault> {
    if count >= BLOCK {
        let block = text.repeat(alloc, BLOCK as usize)?;
        for _ in 0..count / BLOCK {
            out.extend_from_slice(block.as_bytes())?;
        }
    }
    for _ in 0..count % BLOCK {
        out.extend_from_slice(text.as_bytes())?;
    }
    Ok(())
}

fn write_hex(out: &mut Vec<u8>, digits: &str) -> Result<(), LineFault> {
    if digits.is_empty() {
        return Err(LineFault::Mistake);
    }
    for pair in digits.as_bytes().chunks(2) {
        let [high, low] = pair else {
            return Err(LineFault::Mistake);
        };
        out.push(digit(*high)? * 16 + digit(*low)?)?;
    }
    Ok(())
}

fn digit(byte: u8) -> Result<u8, LineFault>
    ensures { IfOk result (λ n. n < 16) }
{
    match byte {
        b'0'..=b'9' => Ok(byte - b'0'),
        b'a'..=b'f' => Ok(byte - b'a' + 10),
        _ => Err(LineFault::Mistake),
    }
}
