//! Numbers.
ghost use Rattle.std.specs.Prelude.{◌≡◌, ◌≤◌, length};
ghost use Rattle.index_tokens.specs.Passes.{run};
ghost use Rattle.index_tokens.specs.Spelling.{is_digit as spec_is_digit, number_of as spec_number_of};

use crate::token::Token;
use exact_tokens::{is_digit, magnitude};

/// The greatest number that digits may write.
const MAX_NUMBER: u64 = 9_223_372_036_854_775_807;

/// How many digits come first.
#[tactic(auto, using(crate::proofs::RunLemmas::runs))]
pub fn digits_len(bytes: &[u8]) -> usize
    ensures len { result ≡ run spec_is_digit bytes.now }
    ensures fits { result ≤ length bytes.now }
{
    let mut len = 0;
    for byte in bytes {
        if !is_digit(*byte) {
            return len;
        }
        len += 1;
    }
    len
}

/// The number that the digits write, if it is not too great.
pub fn number_of(digits: &[u8]) -> Token
    ensures { result ≡ spec_number_of digits.now }
{
    match magnitude(digits, MAX_NUMBER) {
        Some(number) => Token::Number(number as i64),
        None => Token::Bad,
    }
}
