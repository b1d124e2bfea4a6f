//! Which bytes names, digits and the spaces between tokens are made of.
ghost use Rattle.std.specs.Prelude.{◌≡◌, ◌≤◌, IfOk, IsUtf8, drop, length, string_bytes, take};
ghost use Rattle.exact_tokens.specs.Bytes.{is_blank as spec_is_blank, is_digit as spec_is_digit, is_letter as spec_is_letter, is_name_byte as spec_is_name_byte};
ghost use Rattle.exact_tokens.specs.Passes.{run};

use crate::texts::string_of;
use raven_base::NoMemory;
use std::alloc::Global;

/// A space, a tab, a CR or an LF.
pub fn is_blank(byte: u8) -> bool
    ensures { result ≡ spec_is_blank byte }
{
    byte == b' ' || byte == b'\t' || byte == b'\n' || byte == b'\r'
}

/// What a name begins with.
pub fn is_letter(byte: u8) -> bool
    ensures { result ≡ spec_is_letter byte }
{
    (b'A' <= byte && byte <= b'Z') || (b'a' <= byte && byte <= b'z') || byte == b'_'
}

/// A decimal digit.
pub fn is_digit(byte: u8) -> bool
    ensures { result ≡ spec_is_digit byte }
{
    b'0' <= byte && byte <= b'9'
}

/// What a name goes on with.
pub fn is_name_byte(byte: u8) -> bool
    ensures { result ≡ spec_is_name_byte byte }
{
    is_letter(byte) || is_digit(byte)
}

#[tactic(auto, using(crate::proofs::RunLemmas::runs))]
fn name_len(bytes: &[u8]) -> usize
    ensures len { result ≡ run spec_is_name_byte bytes.now }
    ensures fits { result ≤ length bytes.now }
{
    let mut len = 0;
    for byte in bytes {
        if !is_name_byte(*byte) {
            return len;
        }
        len += 1;
    }
    len
}

/// The bytes of a name that come first, and how many they are.
pub fn word(alloc: Global, bytes: &[u8]) -> Result<(String, usize), NoMemory>
    requires { IsUtf8 bytes.now }
    ensures word { IfOk result (λ found. string_bytes found.0 ≡ take (run spec_is_name_byte bytes.now) bytes.now) }
    ensures len { IfOk result (λ found. found.1 ≡ run spec_is_name_byte bytes.now) }
    ensures rest { IfOk result (λ found. IsUtf8 (drop found.1 bytes.now)) }
{
    let len = name_len(bytes);
    let word = Vec::from_slice(alloc, &bytes[..len])?;
    Ok((string_of(word), len))
}
