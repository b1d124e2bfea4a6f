//! The marks: the tokens that are neither names, numbers nor texts.
ghost use Rattle.std.specs.Prelude.{◌≡◌, ◌<◌, OnSome};
ghost use Rattle.index_tokens.specs.Spelling.{single as spec_single, double as spec_double};

use crate::token::Token;

/// The mark of one byte.
pub fn single(byte: u8) -> Option<Token>
    ensures mark { result ≡ spec_single byte }
    ensures ascii { OnSome result (byte < 128) }
{
    let token = match byte {
        b'{' => Token::OpenBrace,
        b'}' => Token::CloseBrace,
        b'(' => Token::Open,
        b')' => Token::Close,
        b',' => Token::Comma,
        b'.' => Token::Point,
        b'=' => Token::Assign,
        b'?' => Token::Question,
        b':' => Token::Colon,
        b'<' => Token::Below,
        b'>' => Token::Above,
        b'+' => Token::Plus,
        b'-' => Token::Dash,
        b'*' => Token::Star,
        b'/' => Token::Slash,
        b'%' => Token::Percent,
        b'!' => Token::Bang,
        _ => return None,
    };
    Some(token)
}

/// The mark of two bytes.
pub fn double(first: u8, second: u8) -> Option<Token>
    ensures mark { result ≡ spec_double first second }
    ensures first_ascii { OnSome result (first < 128) }
    ensures second_ascii { OnSome result (second < 128) }
{
    if second == b'=' {
        match first {
            b'=' => Some(Token::Equals),
            b'!' => Some(Token::NotEquals),
            b'<' => Some(Token::AtMost),
            b'>' => Some(Token::AtLeast),
            _ => None,
        }
    } else if first == b'=' && second == b'>' {
        Some(Token::Arrow)
    } else if first == b'|' && second == b'|' {
        Some(Token::OrOr)
    } else if first == b'&' && second == b'&' {
        Some(Token::AndAnd)
    } else {
        None
    }
}
