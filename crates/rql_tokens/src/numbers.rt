//! Numbers.
ghost use Rattle.std.specs.Prelude.{◌≡◌, ◌≤◌, neg_ℤ, pos};
ghost use Rattle.std.specs.List.{list_all};
ghost use Rattle.exact_tokens.specs.Bytes.{is_digit as spec_is_digit};
ghost use Rattle.rql_tokens.specs.Spelling.{max_negative, negative as spec_negative, positive as spec_positive};

use crate::token::Token;
use exact_tokens::{is_digit, magnitude};

/// The greatest number.
const MAX_NUMBER: u64 = 9_223_372_036_854_775_807;

/// The greatest number that may stand behind `-`.
const MAX_NEGATIVE: u64 = 9_223_372_036_854_775_808;

fn are_digits(bytes: &[u8]) -> bool
    ensures { result ≡ list_all spec_is_digit bytes.now }
{
    bytes.iter().all(|byte| is_digit(*byte))
}

#[tactic(auto, using(crate::proofs::NumberLemmas::least_is))]
fn negated(number: u64) -> i64
    requires { number ≤ max_negative }
    ensures { result ≡ neg_ℤ (pos number) }
{
    if number == MAX_NEGATIVE {
        i64::MIN
    } else {
        -(number as i64)
    }
}

/// The token of bytes that begin with a digit.
#[tactic(auto, using(crate::proofs::NumberLemmas::numbers))]
pub fn positive(bytes: &[u8]) -> Token
    ensures { result ≡ spec_positive bytes.now }
{
    if !are_digits(bytes) {
        return Token::BadNumber;
    }
    match magnitude(bytes, MAX_NUMBER) {
        Some(number) => Token::Number(number as i64),
        None => Token::BadNumber,
    }
}

/// The token of bytes that begin with a digit, behind `-`.
#[tactic(auto, using(crate::proofs::NumberLemmas::numbers))]
pub fn negative(bytes: &[u8]) -> Token
    ensures { result ≡ spec_negative bytes.now }
{
    if !are_digits(bytes) {
        return Token::BadNumber;
    }
    match magnitude(bytes, MAX_NEGATIVE) {
        Some(number) => Token::Number(negated(number)),
        None => Token::BadNumber,
    }
}
