//! From bytes to a value.
ghost use Rattle.std.specs.Prelude.{◌≡◌, ◌≤◌, Ok, IfOk, IfErr, false};
ghost use Rattle.spec_data.specs.Data.{depth};
ghost use Rattle.spec_data.specs.Limits.{max_depth};
ghost use Rattle.spec_data.specs.Sound.{IsSound};
ghost use Rattle.spec_data.specs.Json.{reading};
ghost use Rattle.spec_data.specs.Scan.{is_too_deep, outside};
ghost use Rattle.raven_json.specs.Refusal.{Refuses};
ghost use Rattle.raven_value.specs.View.{data_of};

use crate::convert::value_of;
use crate::direct::{Stop, read_whole};
use crate::scan::is_too_deep;
use raven_value::Value;
use serde_json::Value as Json;
use std::alloc::Global;
use thiserror::Error;

/// Why bytes are not read. `TooDeep` is tested first, then `NotJson`, then `NumberNotWhole`.
#[derive(Clone, Copy, Debug, Error)]
pub enum JsonRefusal {
    /// The bytes are not the JSON text of one value, or a number in them is beyond every float.
    #[error("the bytes are not JSON")]
    NotJson,

    /// A number is written with a fraction or an exponent or as `-0`, or does not fit in 64 bits.
    #[error("a number is not a whole number of 64 bits")]
    NumberNotWhole,

    /// More than a hundred brackets are open at once.
    #[error("more than a hundred brackets are open at once")]
    TooDeep,

    /// Out of memory.
    #[error("no memory was found")]
    NoMemory,
}

// The value that the bytes spell, by the library's tree of them.
fn read_by_tree(alloc: Global, bytes: &[u8]) -> Result<Value, JsonRefusal>
    requires { is_too_deep outside 0 bytes.now ≡ false }
    ensures ok { IfOk result (λ value. reading bytes.now ≡ Ok (data_of value)) }
    ensures refused { IfErr result (λ refusal. Refuses refusal (reading bytes.now)) }
{
    match Json::from_slice(alloc, bytes) {
        Ok(json) => value_of(alloc, &json),
        Err(error) => if error.is_memory() {
            Err(JsonRefusal::NoMemory)
        } else {
            Err(JsonRefusal::NotJson)
        },
    }
}

// What is not read in one pass is read again, since only the whole tree shows which refusal it is.
fn read_shallow(alloc: Global, bytes: &[u8]) -> Result<Value, JsonRefusal>
    requires { is_too_deep outside 0 bytes.now ≡ false }
    ensures ok { IfOk result (λ value. reading bytes.now ≡ Ok (data_of value)) }
    ensures refused { IfErr result (λ refusal. Refuses refusal (reading bytes.now)) }
{
    match read_whole(alloc, bytes) {
        Ok(value) => Ok(value),
        Err(Stop::NoMemory) => Err(JsonRefusal::NoMemory),
        Err(Stop::Refused) => read_by_tree(alloc, bytes),
    }
}

/// The value that the bytes spell. Of members with the same name the last counts.
pub fn read(alloc: Global, bytes: &[u8]) -> Result<Value, JsonRefusal>
    ensures ok { IfOk result (λ value. reading bytes.now ≡ Ok (data_of value)) }
    ensures sound { IfOk result (λ value. IsSound (data_of value)) }
    ensures shallow { IfOk result (λ value. depth (data_of value) ≤ max_depth) }
    ensures refused { IfErr result (λ refusal. Refuses refusal (reading bytes.now)) }
{
    if is_too_deep(bytes) {
        return Err(JsonRefusal::TooDeep);
    }
    read_shallow(alloc, bytes)
}
