//! The tokens and their places.
use raven_value::Text;

/// A token of the index language.
pub enum Token {
    /// A name. Reserved words are names too, since any name may follow a point, and be the name of a member.
    Word(Text),
    /// A number that digits write, from 0 on.
    Number(i64),
    /// A text, by its value.
    Quoted(Text),
    /// `{`
    OpenBrace,
    /// `}`
    CloseBrace,
    /// `(`
    Open,
    /// `)`
    Close,
    /// `,`
    Comma,
    /// `.`
    Point,
    /// `=`
    Assign,
    /// `=>`
    Arrow,
    /// `?`
    Question,
    /// `:`
    Colon,
    /// `||`
    OrOr,
    /// `&&`
    AndAnd,
    /// `==`
    Equals,
    /// `!=`
    NotEquals,
    /// `<`
    Below,
    /// `<=`
    AtMost,
    /// `>`
    Above,
    /// `>=`
    AtLeast,
    /// `+`
    Plus,
    /// `-`
    Dash,
    /// `*`
    Star,
    /// `/`
    Slash,
    /// `%`
    Percent,
    /// `!`
    Bang,
    /// What no rule takes: digits whose number is too great, or all that is left if no token begins there.
    Bad,
    /// The end of the text, the last token of each.
    End,
}

// Opaque drop: see raven_base.
impl Drop for Token {
    fn drop(self) {
        match self {
            Token::Word(_value) => {}
            Token::Number(_value) => {}
            Token::Quoted(_value) => {}
            Token::OpenBrace => {}
            Token::CloseBrace => {}
            Token::Open => {}
            Token::Close => {}
            Token::Comma => {}
            Token::Point => {}
            Token::Assign => {}
            Token::Arrow => {}
            Token::Question => {}
            Token::Colon => {}
            Token::OrOr => {}
            Token::AndAnd => {}
            Token::Equals => {}
            Token::NotEquals => {}
            Token::Below => {}
            Token::AtMost => {}
            Token::Above => {}
            Token::AtLeast => {}
            Token::Plus => {}
            Token::Dash => {}
            Token::Star => {}
            Token::Slash => {}
            Token::Percent => {}
            Token::Bang => {}
            Token::Bad => {}
            Token::End => {}
        }
    }
}

/// A token and its place.
pub struct Placed {
    /// The place of the token's first byte, counted from 0. The end is after the last byte.
    pub at: usize,
    /// The token.
    pub token: Token,
}

// Opaque drop: see raven_base.
impl Drop for Placed {
    fn drop(self) {
        let Placed {
            at: _at,
            token: _token,
        } = self;
    }
}
