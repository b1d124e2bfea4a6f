//! Which bytes numbers and texts are made of.
ghost use Rattle.std.specs.Prelude.{◌≡◌, ◌≤◌, length};
ghost use Rattle.exact_tokens.specs.Passes.{run};
ghost use Rattle.rql_tokens.specs.Spelling.{is_number_byte as spec_is_number_byte, is_quote as spec_is_quote};
ghost use Rattle.rql_tokens.specs.Tokens.{opens as spec_opens};

use exact_tokens::{is_blank, is_name_byte};

fn is_number_byte(byte: u8) -> bool
    ensures { result ≡ spec_is_number_byte byte }
{
    is_name_byte(byte) || byte == b'.'
}

/// What a text stands in.
pub fn is_quote(byte: u8) -> bool
    ensures { result ≡ spec_is_quote byte }
{
    byte == b'\'' || byte == b'"'
}

/// How many digits come first, with what makes a bad number of them.
#[tactic(auto, using(crate::proofs::RunLemmas::runs))]
pub fn number_len(bytes: &[u8]) -> usize
    ensures len { result ≡ run spec_is_number_byte bytes.now }
    ensures fits { result ≤ length bytes.now }
{
    let mut len = 0;
    for byte in bytes {
        if !is_number_byte(*byte) {
            return len;
        }
        len += 1;
    }
    len
}

/// Whether `(` is the next token.
pub fn opens(bytes: &[u8]) -> bool
    ensures { result ≡ spec_opens bytes.now }
{
    for byte in bytes {
        if !is_blank(*byte) {
            return *byte == b'(';
        }
    }
    false
}
