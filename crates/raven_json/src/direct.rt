//! From bytes to a value in one pass, if each number is whole.
ghost use Rattle.std.specs.Prelude.{◌≡◌, ◌<◌, ◌==◌, [], length, true, false, Some, Ok, IfOk, IfSome, OnOk, option_and_then, slice_index};
ghost use Rattle.fast_float.specs.Text.{scan};
ghost use Rattle.json.specs.Lex.{tokens};
ghost use Rattle.raven_json.specs.Whole.{whole_number, front_value, front_items, front_members};
ghost use Rattle.raven_value.specs.View.{data_of};
ghost use Rattle.serde_json.specs.Find.{as_i64};
ghost use Rattle.serde_json.specs.Read.{number_from};
ghost use Rattle.spec_data.specs.Json.{reading};
ghost use Rattle.spec_data.specs.Scan.{is_too_deep, outside};

use fast_float::Numeral;
use json::{Invalid, Reader, Scratch, Token};
use raven_base::NoMemory;
use raven_value::{Members, Text, Value, Values};
use simdutf8::basic::from_utf8;
use std::alloc::Global;

/// Why no value was made.
#[derive(Clone, Copy)]
pub(crate) enum Stop {
    /// The bytes are not JSON, or a number is not whole.
    Refused,

    /// Out of memory.
    NoMemory,
}

impl From<Invalid> for Stop {
    fn from(_invalid: Invalid) -> Stop {
        Stop::Refused
    }
}

impl From<NoMemory> for Stop {
    fn from(_error: NoMemory) -> Stop {
        Stop::NoMemory
    }
}

// How deep lists and objects nest at most. The bytes are not too deep, so this is never met.
const DEEPEST: usize = 127;

// The number below 0 that these digits are with a minus before them. `-0` is none.
#[tactic(auto, using(crate::proofs::WholeNumbers::whole_numbers))]
fn below_zero(digits: &[u8]) -> Option<i64>
    ensures { IfSome result (λ n. option_and_then as_i64 (number_from true (scan digits.now)) ≡ Some n) }
{
    let number = Numeral::scan(digits).to_i64(true)?;
    if number == 0 { None } else { Some(number) }
}

#[tactic(auto, using(crate::proofs::WholeNumbers::whole_numbers))]
fn from_zero(digits: &[u8]) -> Option<i64>
    ensures { IfSome result (λ n. option_and_then as_i64 (number_from false (scan digits.now)) ≡ Some n) }
{
    Numeral::scan(digits).to_i64(false)
}

fn has_minus(bytes: &[u8]) -> bool
    ensures value { result ≡ (slice_index bytes.now 0 == 45) }
    ensures len { result ≡ true → 0 < length bytes.now }
{
    !bytes.is_empty() && bytes[0] == b'-'
}

// The whole number of 64 bits that is written in the text of a number.
#[tactic(auto, using(crate::proofs::WholeNumbers::whole_numbers))]
fn whole_number(text: &str) -> Option<i64>
    ensures { IfSome result (λ n. whole_number text.now ≡ Some n) }
{
    let bytes = text.as_bytes();
    if has_minus(bytes) {
        below_zero(&bytes[1..])
    } else {
        from_zero(bytes)
    }
}

// The next value of the reader.
#[cycle(direct)]
#[inline(always)]
fn read_value(alloc: Global, reader: &mut Reader<'_>, depth: usize) -> Result<Value, Stop>
    ensures ok { IfOk result (λ v. front_value depth reader.old ≡ Some (data_of v, reader.new)) }
    ensures shorter { OnOk result (length reader.new < length reader.old) }
{
    let token = reader.next().ok_or(Stop::Refused)?;
    match token {
        Token::String(text) => Ok(Value::Text(Text::of(alloc, text)?)),
        Token::Number(text) => match whole_number(text) {
            Some(number) => Ok(Value::Num(number)),
            None => Err(Stop::Refused),
        },
        Token::Bool(flag) => Ok(Value::Flag(flag)),
        Token::Null => Ok(Value::Null),
        Token::EndObject | Token::EndArray | Token::Key(_) | Token::Bad => Err(Stop::Refused),
        Token::BeginArray => {
            if depth == 0 {
                return Err(Stop::Refused);
            }
            Ok(Value::List(read_items(alloc, reader, depth - 1)?))
        }
        Token::BeginObject => {
            if depth == 0 {
                return Err(Stop::Refused);
            }
            Ok(Value::Map(read_members(alloc, reader, depth - 1)?))
        }
    }
}

// The items up to the bracket that closes a list.
#[cycle(direct)]
#[inline(never)]
fn read_items(alloc: Global, reader: &mut Reader<'_>, depth: usize) -> Result<Values, Stop>
    ensures ok { IfOk result (λ vs. front_items depth reader.old ≡ Some (vs, reader.new)) }
    ensures shorter { OnOk result (length reader.new < length reader.old) }
{
    let mut found = Values::new(alloc);
    'items: while !reader.take_end_array() {
        let item = read_value(alloc, reader, depth)?;
        found.push(item)?;
    }
    Ok(found)
}

// The members up to the brace that closes an object.
#[cycle(direct)]
#[inline(never)]
fn read_members(alloc: Global, reader: &mut Reader<'_>, depth: usize) -> Result<Members, Stop>
    ensures ok { IfOk result (λ ms. front_members depth reader.old ≡ Some (ms, reader.new)) }
    ensures shorter { OnOk result (length reader.new < length reader.old) }
{
    let mut found = Members::new(alloc);
    'members: while let Some(key) = reader.next_key()? {
        let name = Text::of(alloc, key)?;
        let member = read_value(alloc, reader, depth)?;
        found.put(name, member)?;
    }
    Ok(found)
}

fn read_text(alloc: Global, text: &str, scratch: &mut Scratch) -> Result<Value, Stop>
    ensures { IfOk result (λ v. front_value 127 (tokens text.now) ≡ Some (data_of v, [])) }
{
    let Ok(mut reader) = Reader::new(text, scratch) else {
        return Err(Stop::NoMemory);
    };
    let value = read_value(alloc, &mut reader, DEEPEST)?;
    match reader.next() {
        Some(_) => Err(Stop::Refused),
        None => Ok(value),
    }
}

// The scratch is 16 KiB. It is made where the function begins and in no caller's frame, so that it is zeroed once.
#[inline(never)]
fn read_str(alloc: Global, text: &str) -> Result<Value, Stop>
    ensures { IfOk result (λ v. front_value 127 (tokens text.now) ≡ Some (data_of v, [])) }
{
    let mut scratch = Scratch::new(alloc);
    read_text(alloc, text, &mut scratch)
}

/// The value that the bytes spell, if each number in them is whole, also one that a later member of the same name replaces.
pub(crate) fn read_whole(alloc: Global, bytes: &[u8]) -> Result<Value, Stop>
    requires { is_too_deep outside 0 bytes.now ≡ false }
    ensures { IfOk result (λ v. reading bytes.now ≡ Ok (data_of v)) }
{
    let Ok(text) = from_utf8(bytes) else {
        return Err(Stop::Refused);
    };
    read_str(alloc, text)
}
