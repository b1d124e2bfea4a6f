//! The tokens and their places.
use crate::key_words::KeyWord;
use raven_value::Text;

/// A token of a query.
pub enum Token {
    /// A name, which is no key word, as it is spelled.
    Name(Text),
    /// A key word, in upper case or lower case.
    Key(KeyWord),
    /// A number of 64 bits.
    Number(i64),
    /// A number outside 64 bits, or digits that a letter, `_` or a point follows at once.
    BadNumber,
    /// A text, by its value.
    Quoted(Text),
    /// `(`
    Open,
    /// `)`
    Close,
    /// `,`
    Comma,
    /// `.`
    Point,
    /// `$`
    Dollar,
    /// `=` or `==`
    Equal,
    /// `!=` or `<>`
    NotEqual,
    /// `<`
    Below,
    /// `<=`
    AtMost,
    /// `>`
    Above,
    /// `>=`
    AtLeast,
    /// What no rule takes: all that is left, if no token begins there.
    Bad,
    /// The end of the text, the last token of each.
    End,
}

// Opaque drop: see raven_base.
impl Drop for Token {
    fn drop(self) {
        match self {
            Token::Name(_value) => {}
            Token::Key(_value) => {}
            Token::Number(_value) => {}
            Token::BadNumber => {}
            Token::Quoted(_value) => {}
            Token::Open => {}
            Token::Close => {}
            Token::Comma => {}
            Token::Point => {}
            Token::Dollar => {}
            Token::Equal => {}
            Token::NotEqual => {}
            Token::Below => {}
            Token::AtMost => {}
            Token::Above => {}
            Token::AtLeast => {}
            Token::Bad => {}
            Token::End => {}
        }
    }
}

/// A token and its place.
pub struct Placed {
    /// The place of the token's first byte, counted from 0. The end is after the last byte.
    pub at: usize,
    /// The token.
    pub token: Token,
    /// Whether the next token is `(`. So a name that is a call is known by itself.
    pub called: bool,
}

// Opaque drop: see raven_base.
impl Drop for Placed {
    fn drop(self) {
        let Placed {
            at: _at,
            token: _token,
            called: _called,
        } = self;
    }
}
