//! Whether a token is the one that is looked for.
ghost use Rattle.std.specs.Prelude.{◌≡◌};
ghost use Rattle.index_tokens.specs.Words.{same_token};
ghost use Rattle.index_tokens.specs.declared.token.Token.TheVariants as t;

use index_tokens::Token;

/// Whether both are the same mark.
pub fn same_mark(mark: &Token, token: &Token) -> bool
    ensures { result ≡ same_token mark.now token.now }
{
    match (mark, token) {
        (Token::OpenBrace, Token::OpenBrace)
        | (Token::CloseBrace, Token::CloseBrace)
        | (Token::Open, Token::Open)
        | (Token::Close, Token::Close)
        | (Token::Comma, Token::Comma)
        | (Token::Point, Token::Point)
        | (Token::Assign, Token::Assign)
        | (Token::Arrow, Token::Arrow)
        | (Token::Question, Token::Question)
        | (Token::Colon, Token::Colon)
        | (Token::Slash, Token::Slash)
        | (Token::End, Token::End) => true,
        (Token::Word(word), Token::Word(other)) => word == other,
        _ => false,
    }
}

/// Whether the token is this word.
pub fn is_word(word: &str, token: &Token) -> bool
    ensures { result ≡ same_token (t.Word word.now) token.now }
{
    match token {
        Token::Word(other) => word == other.as_str(),
        _ => false,
    }
}
