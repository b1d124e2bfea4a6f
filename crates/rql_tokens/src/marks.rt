//! The marks: the tokens that are neither words, numbers nor texts.
ghost use Rattle.std.specs.Prelude.{◌≡◌, ◌<◌, OnSome};
ghost use Rattle.rql_tokens.specs.Spelling.{single as spec_single, double as spec_double};

use crate::token::Token;

/// The mark of one byte.
pub fn single(byte: u8) -> Option<Token>
    ensures mark { result ≡ spec_single byte }
    ensures ascii { OnSome result (byte < 128) }
{
    let token = match byte {
        b'(' => Token::Open,
        b')' => Token::Close,
        b',' => Token::Comma,
        b'.' => Token::Point,
        b'$' => Token::Dollar,
        b'=' => Token::Equal,
        b'<' => Token::Below,
        b'>' => Token::Above,
        _ => return None,
    };
    Some(token)
}

/// The mark of two bytes.
pub fn double(first: u8, second: u8) -> Option<Token>
    ensures mark { result ≡ spec_double first second }
    ensures first_ascii { OnSome result (first < 128) }
    ensures second_ascii { OnSome result (second < 128) }
{
    if second == b'=' {
        match first {
            b'=' => Some(Token::Equal),
            b'!' => Some(Token::NotEqual),
            b'<' => Some(Token::AtMost),
            b'>' => Some(Token::AtLeast),
            _ => None,
        }
    } else if first == b'<' && second == b'>' {
        Some(Token::NotEqual)
    } else {
        None
    }
}
