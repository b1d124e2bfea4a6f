//! The values of lines.
use crate::clock::CaseClock;
use crate::fault::LineFault;
use crate::marks::write_out;
use raven_base::Numbers;
use raven_ports::KeptRow;
use raven_value::Text;
use std::alloc::Global;

/// A decimal number.
pub fn number_in(value: &str) -> Result<u64, LineFault> {
    if !value.bytes().all(|byte| byte.is_ascii_digit()) {
        return Err(LineFault::Mistake);
    }
    value.parse::<u64>().map_err(|_| LineFault::Mistake)
}

/// Numbers that are separated by single spaces.
pub fn numbers_in(alloc: Global, value: &str) -> Result<Numbers, LineFault> {
    let mut numbers = Numbers::new(alloc);
    for number in value.split(' ') {
        numbers.push(number_in(number)?)?;
    }
    Ok(numbers)
}

/// A text, with its marks written out.
pub fn string_in(alloc: Global, value: &str) -> Result<String, LineFault> {
    let mut bytes = Vec::new(alloc);
    write_out(alloc, &mut bytes, value, None)?;
    String::from_utf8(bytes).map_err(|_| LineFault::Mistake)
}

/// The same as a `Text`.
pub fn text_in(alloc: Global, value: &str) -> Result<Text, LineFault> {
    Ok(Text::of_string(string_in(alloc, value)?)?)
}

/// Arguments that are separated by single spaces, and none if there is no value.
pub fn arguments_in(alloc: Global, value: &str) -> Result<Vec<String>, LineFault> {
    let mut arguments = Vec::new(alloc);
    if !value.is_empty() {
        for argument in string_in(alloc, value)?.split(' ') {
            arguments.push(String::from_str(alloc, argument)?)?;
        }
    }
    Ok(arguments)
}

/// A clock, as `5` or `5 +1`.
pub fn clock_in(value: &str) -> Result<CaseClock, LineFault> {
    let (first, step) = value.split_once(" +").unwrap_or((value, "0"));
    CaseClock::new(number_in(first)?, number_in(step)?).ok_or(LineFault::Mistake)
}

/// The tombstone of an etag and a moment, as `7 0`.
pub fn row_in(alloc: Global, value: &str) -> Result<KeptRow, LineFault> {
    let (etag, moment) = value.split_once(' ').ok_or(LineFault::Mistake)?;
    Ok(KeptRow {
        etag: number_in(etag)?,
        id: Text::of(alloc, "")?,
        collection: Text::of(alloc, "@empty")?,
        body: None,
        changed: number_in(moment)?,
    })
}
