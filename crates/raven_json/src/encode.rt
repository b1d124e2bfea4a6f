//! From a value to its text.
ghost use Rattle.std.specs.Prelude.{◌≡◌, ◌<◌, ◌≤◌, ◌++◌, ◌∷◌, [], OnOk, IfOk, Ok, IsTrue, IsUtf8, FitsSigned, false, flat_map, length, take};
ghost use Rattle.std.specs.Char.{digit_char};
ghost use Rattle.std.specs.Fmt.{signed_decimal};
ghost use Rattle.std.specs.Int.{w64};
ghost use Rattle.raven_value.specs.View.{data_of};
ghost use Rattle.spec_data.specs.Data.{depth, items_of, entries_of};
ghost use Rattle.spec_data.specs.Json.{reading};
ghost use Rattle.spec_data.specs.Limits.{max_depth};
ghost use Rattle.spec_data.specs.Rising.{IsRising};
ghost use Rattle.spec_data.specs.Sound.{IsSound, AreSound, HasSound};
ghost use Rattle.spec_data.specs.Written.{escaped, quoted, text_of, items_text, entries_text};

use raven_base::NoMemory;
use raven_value::{Members, Value, Values};
use std::alloc::{AllocError, Global};

fn hex_digit(n: u8) -> u8
    requires { n < 16 }
    ensures { result ≡ digit_char n }
{
    if n < 10 { b'0' + n } else { b'a' + (n - 10) }
}

fn write_byte(out: &mut Vec<u8>, byte: u8) -> Result<(), AllocError>
    ensures { OnOk result (out.new.items ≡ out.old.items ++ escaped byte) }
{
    match byte {
        b'"' => out.extend_from_slice(b"\\\"")?,
        b'\\' => out.extend_from_slice(b"\\\\")?,
        8 => out.extend_from_slice(b"\\b")?,
        b'\t' => out.extend_from_slice(b"\\t")?,
        b'\n' => out.extend_from_slice(b"\\n")?,
        12 => out.extend_from_slice(b"\\f")?,
        b'\r' => out.extend_from_slice(b"\\r")?,
        0..32 => {
            out.extend_from_slice(b"\\u00")?;
            out.push(hex_digit(byte / 16))?;
            out.push(hex_digit(byte % 16))?;
        }
        _ => out.push(byte)?,
    }
    Ok(())
}

// Whether the byte is written in a text as it is.
fn is_plain(byte: u8) -> bool
    ensures { IsTrue result → escaped byte ≡ byte ∷ [] }
{
    byte >= 32 && byte != b'"' && byte != b'\\'
}

// How many of the bytes, from the first on, are written as they are.
#[tactic(auto, using(crate::proofs::Plain::plain_more))]
fn plain_len(bytes: &[u8]) -> usize
    ensures in_range { result ≤ length bytes.now }
    ensures plain { flat_map escaped (take result bytes.now) ≡ take result bytes.now }
{
    let mut len = 0;
    while len < bytes.len() && is_plain(bytes[len]) {
        len += 1;
    }
    len
}

// Writes the bytes of a text: a run of plain ones at once.
#[tactic(auto, using(crate::proofs::Plain::plain_run, crate::proofs::Plain::first_one))]
fn write_escaped(out: &mut Vec<u8>, bytes: &[u8]) -> Result<(), AllocError>
    ensures { OnOk result (out.new.items ≡ out.old.items ++ flat_map escaped bytes.now) }
{
    let mut done = 0;
    while done < bytes.len() {
        let rest = &bytes[done..];
        let run = plain_len(rest);
        if run > 0 {
            out.extend_from_slice(&rest[..run])?;
            done += run;
        } else {
            write_byte(out, bytes[done])?;
            done += 1;
        }
    }
    Ok(())
}

fn write_quoted(out: &mut Vec<u8>, text: &str) -> Result<(), AllocError>
    ensures text { OnOk result (out.new.items ≡ out.old.items ++ quoted text.now) }
    ensures utf8 { OnOk result (IsUtf8 text.now) }
{
    out.push(b'"')?;
    write_escaped(out, text.as_bytes())?;
    out.push(b'"')?;
    Ok(())
}

fn write_number(alloc: Global, out: &mut Vec<u8>, number: i64) -> Result<(), AllocError>
    ensures text { OnOk result (out.new.items ≡ out.old.items ++ signed_decimal number) }
    ensures fits { FitsSigned w64 number }
{
    out.extend_from_slice(number.to_string(alloc)?.as_bytes())?;
    Ok(())
}

#[tactic(auto, using(crate::proofs::Sounds::sounds))]
#[cycle(write)]
fn write_value(alloc: Global, out: &mut Vec<u8>, value: &Value) -> Result<(), AllocError>
    ensures text { OnOk result (out.new.items ≡ out.old.items ++ text_of (data_of value.now)) }
    ensures sound { OnOk result (IsSound (data_of value.now)) }
{
    match value {
        Value::Null => out.extend_from_slice(b"null")?,
        Value::Flag(true) => out.extend_from_slice(b"true")?,
        Value::Flag(false) => out.extend_from_slice(b"false")?,
        Value::Num(number) => write_number(alloc, out, *number)?,
        Value::Text(text) => write_quoted(out, text.as_str())?,
        Value::List(items) => {
            out.push(b'[')?;
            write_items(alloc, out, items)?;
            out.push(b']')?;
        }
        Value::Map(members) => {
            out.push(b'{')?;
            write_members(alloc, out, members)?;
            out.push(b'}')?;
        }
    }
    Ok(())
}

#[cycle(write)]
fn write_items(alloc: Global, out: &mut Vec<u8>, items: &Values) -> Result<(), AllocError>
    ensures text { OnOk result (out.new.items ≡ out.old.items ++ items_text false (items_of items.now)) }
    ensures sound { OnOk result (AreSound (items_of items.now)) }
{
    let mut later = false;
    for item in items.as_slice() {
        if later {
            out.push(b',')?;
        }
        write_value(alloc, out, item)?;
        later = true;
    }
    Ok(())
}

#[tactic(auto, using(crate::proofs::Sounds::sounds))]
#[cycle(write)]
fn write_members(alloc: Global, out: &mut Vec<u8>, members: &Members) -> Result<(), AllocError>
    ensures text { OnOk result (out.new.items ≡ out.old.items ++ entries_text false (entries_of members.now)) }
    ensures rising { IsRising members.now }
    ensures sound { OnOk result (HasSound (entries_of members.now)) }
{
    let mut later = false;
    for member in members.as_slice() {
        if later {
            out.push(b',')?;
        }
        write_quoted(out, member.0.as_str())?;
        out.push(b':')?;
        write_value(alloc, out, &member.1)?;
        later = true;
    }
    Ok(())
}

/// The compact text of a value. If the value is at most a hundred deep, the text is read as that value.
#[tactic(auto, using(crate::proofs::RoundTrip::read_back))]
pub fn write(alloc: Global, value: &Value) -> Result<Vec<u8>, NoMemory>
    ensures text { IfOk result (λ bytes. bytes.items ≡ text_of (data_of value.now)) }
    ensures utf8 { IfOk result (λ bytes. IsUtf8 bytes.items) }
    ensures sound { IfOk result (λ bytes. IsSound (data_of value.now)) }
    ensures reads_back { IfOk result (λ bytes. depth (data_of value.now) ≤ max_depth → reading bytes.items ≡ Ok (data_of value.now)) }
{
    let mut out = Vec::new(alloc);
    write_value(alloc, &mut out, value)?;
    Ok(out)
}

/// Appends the compact text of a value.
pub fn write_to(alloc: Global, out: &mut Vec<u8>, value: &Value) -> Result<(), NoMemory>
    ensures { OnOk result (out.new.items ≡ out.old.items ++ text_of (data_of value.now)) }
{
    write_value(alloc, out, value)?;
    Ok(())
}

/// Appends the JSON text of a text.
pub fn write_text(out: &mut Vec<u8>, text: &str) -> Result<(), NoMemory>
    ensures { OnOk result (out.new.items ≡ out.old.items ++ quoted text.now) }
{
    write_quoted(out, text)?;
    Ok(())
}
