//! Texts in quotes.
ghost use Rattle.std.specs.Prelude.{◌≡◌, ◌<◌, ◌≤◌, IfOk, IfSome, IsUtf8, length, drop, [], option_map, string_bytes, true};
ghost use Rattle.exact_tokens.specs.Texts.{are_ascii, is_raw as spec_is_raw, meant_by as spec_meant_by};
ghost use Rattle.exact_tokens.specs.Passes.{text_from};

use raven_base::NoMemory;
use std::alloc::Global;

/// The string of bytes that are known to be one.
pub fn string_of(bytes: Vec<u8>) -> String
    requires { IsUtf8 bytes.items }
    ensures { string_bytes result ≡ bytes.items }
{
    String::from_utf8(bytes).unwrap()
}

// What a backslash and the byte after it mean.
fn meant_by(escapes: &[(u8, u8)], letter: u8) -> Option<u8>
    ensures { result ≡ spec_meant_by escapes.now letter }
{
    for (escape, meaning) in escapes {
        if letter == *escape {
            return Some(*meaning);
        }
    }
    None
}

fn is_raw(quote: u8, byte: u8) -> bool
    ensures { result ≡ spec_is_raw quote byte }
{
    byte >= 32 && byte != 127 && byte != quote && byte != b'\\'
}

/// The value of a text in such quotes, by what follows the first of them, and how many bytes that is, the closing quote with them. There is none if
/// the text is not closed, or holds what no text may. The escapes are the bytes that may follow a backslash, and what each means.
#[tactic(auto, using(crate::proofs::QuotedLemmas::quoted))]
pub fn quoted(
    alloc: Global,
    quote: u8,
    escapes: &[(u8, u8)],
    bytes: &[u8],
) -> Result<Option<(String, usize)>, NoMemory>
    requires quote { quote < 128 }
    requires escapes { are_ascii escapes.now ≡ true }
    requires utf8 { IsUtf8 bytes.now }
    ensures read { IfOk result (λ found. option_map (λ part. (string_bytes part.0, part.1)) found ≡ text_from quote escapes.now [] 0 bytes.now) }
    ensures fits { IfOk result (λ found. IfSome found (λ part. part.1 ≤ length bytes.now)) }
    ensures rest { IfOk result (λ found. IfSome found (λ part. IsUtf8 (drop part.1 bytes.now))) }
{
    let mut value = Vec::new(alloc);
    let mut rest = bytes;
    let mut len = 0;
    while let Some((byte, more)) = rest.split_first() {
        if *byte == quote {
            return Ok(Some((string_of(value), len + 1)));
        }
        if *byte == b'\\' {
            let Some((letter, behind)) = more.split_first() else {
                return Ok(None);
            };
            let Some(meant) = meant_by(escapes, *letter) else {
                return Ok(None);
            };
            value.push(meant)?;
            rest = behind;
            len += 2;
        } else if is_raw(quote, *byte) {
            value.push(*byte)?;
            rest = more;
            len += 1;
        } else {
            return Ok(None);
        }
    }
    Ok(None)
}
