//! How long the text of a value is, without making it.
ghost use Rattle.std.specs.Prelude.{◌≡◌, ◌≤◌, ◌+◌, ◌-◌, ◌^◌, length, min, false, IfErr, IfOk};
ghost use Rattle.std.specs.Fmt.{decimal, signed_decimal};
ghost use Rattle.raven_value.specs.View.{data_of};
ghost use Rattle.spec_data.specs.Data.{items_of, entries_of};
ghost use Rattle.spec_data.specs.Written.{escaped, quoted, text_of, items_text, entries_text};

use raven_base::NoMemory;
use raven_value::{Members, Value, Values};

// How many bytes are written for the byte in a text.
fn escaped_len(byte: u8) -> u64
    ensures { result ≡ length (escaped byte) }
{
    match byte {
        b'"' | b'\\' | 8 | b'\t' | b'\n' | 12 | b'\r' => 2,
        0..32 => 6,
        _ => 1,
    }
}

// How many digits a number has.
fn digits_of(number: u64) -> u64
    ensures { result ≡ length (decimal number) }
{
    let mut rest = number;
    let mut digits = 1;
    while rest >= 10 {
        rest /= 10;
        digits += 1;
    }
    digits
}

fn number_len(number: i64) -> u64
    ensures { result ≡ length (signed_decimal number) }
{
    let digits = digits_of(number.unsigned_abs());
    if number < 0 { digits + 1 } else { digits }
}

// Adds the length of a text in quotes to a length. Here and below no more than 2^64 - 1 bytes are counted.
fn with_quoted(len: u64, text: &str) -> u64
    ensures { result ≡ min (len + length (quoted text.now)) (2 ^ 64 - 1) }
{
    let mut all = len.saturating_add(2);
    for byte in text.as_bytes() {
        all = all.saturating_add(escaped_len(*byte));
    }
    all
}

#[cycle(measure)]
fn with_value(len: u64, value: &Value) -> u64
    ensures { result ≡ min (len + length (text_of (data_of value.now))) (2 ^ 64 - 1) }
{
    match value {
        Value::Null | Value::Flag(true) => len.saturating_add(4),
        Value::Flag(false) => len.saturating_add(5),
        Value::Num(number) => len.saturating_add(number_len(*number)),
        Value::Text(text) => with_quoted(len, text.as_str()),
        Value::List(items) => with_items(len.saturating_add(2), items),
        Value::Map(members) => with_members(len.saturating_add(2), members),
    }
}

#[cycle(measure)]
fn with_items(len: u64, items: &Values) -> u64
    ensures { result ≡ min (len + length (items_text false (items_of items.now))) (2 ^ 64 - 1) }
{
    let mut all = len;
    let mut later = false;
    for item in items.as_slice() {
        if later {
            all = all.saturating_add(1);
        }
        all = with_value(all, item);
        later = true;
    }
    all
}

#[cycle(measure)]
fn with_members(len: u64, members: &Members) -> u64
    ensures { result ≡ min (len + length (entries_text false (entries_of members.now))) (2 ^ 64 - 1) }
{
    let mut all = len;
    let mut later = false;
    for member in members.as_slice() {
        if later {
            all = all.saturating_add(1);
        }
        all = with_quoted(all, member.0.as_str()).saturating_add(1);
        all = with_value(all, &member.1);
        later = true;
    }
    all
}

/// How many bytes the compact text of a value has, without making it. It takes no memory, but no memory can hold a text of
/// 2^64 - 1 bytes or more.
pub fn text_len(value: &Value) -> Result<u64, NoMemory>
    ensures len { IfOk result (λ len. len ≡ length (text_of (data_of value.now))) }
    ensures no_memory { IfErr result (λ _. 2 ^ 64 - 1 ≤ length (text_of (data_of value.now))) }
{
    let len = with_value(0, value);
    if len == u64::MAX {
        return Err(NoMemory);
    }
    Ok(len)
}
