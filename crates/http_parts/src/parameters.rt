//! The parameters of a query.
ghost use Rattle.std.specs.Prelude.{◌≡◌, IfOk, option_map};
ghost use Rattle.std.specs.Cow.{cow_str_bytes};
ghost use Rattle.http_parts.specs.Parameters as spec;

use form_urlencoded::{decode, raw_pairs};
use raven_base::NoMemory;
use std::alloc::Global;
use std::borrow::CowStr;

/// The value of the first parameter of this name, decoded as a form of the URL Standard: `+` is a space, a malformed escape stays as it
/// is, and bytes that are no UTF-8 become U+FFFD. It borrows the query if nothing in it is encoded.
pub fn parameter<'q>(
    alloc: Global,
    query: &'q str,
    name: &str,
) -> Result<Option<CowStr<'q, Global>>, NoMemory>
    ensures { IfOk result (λ found. option_map cow_str_bytes found ≡ spec.parameter name.now query.now) }
{
    for (key, value) in raw_pairs(query.as_bytes()) {
        if decode(alloc, key)?.as_str() == name {
            return Ok(Some(decode(alloc, value)?));
        }
    }
    Ok(None)
}
