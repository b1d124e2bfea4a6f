//! What a token may be taken as.
ghost use Rattle.std.specs.Prelude.{◌≡◌, ◌==◌, ◌||◌, IfOk, option_map};
ghost use Rattle.std.specs.List.{list_any};
ghost use Rattle.std.specs.Option.{option_and_then, option_copied};
ghost use Rattle.raven_value.specs.ScalarView.{scalar_view};
ghost use Rattle.rql_tokens.specs.Words.{function as spec_function, part_as, same_token};
ghost use Rattle.rql_grammar.specs.Conditions.{operator_as};
ghost use Rattle.rql_grammar.specs.Fields.{constant_as};
ghost use Rattle.rql_grammar.specs.Limits.{is_part as spec_is_part};
ghost use Rattle.rql_grammar.specs.Queries.{desc_of as spec_desc_of, if_collection, is_collection as spec_is_collection, is_word, long_of as spec_long_of};
ghost use Rattle.rql_tree.specs.View.{op_of};

use raven_base::NoMemory;
use raven_value::{Scalar, Text};
use rql_tokens::{Function, KeyWord, Placed, Token, function_of};
use rql_tree::CompareOp;

/// Whether both are the same mark, or the same key word.
pub fn same_mark(mark: &Token, token: &Token) -> bool
    ensures { result ≡ same_token mark.now token.now }
{
    match (mark, token) {
        (Token::Open, Token::Open)
        | (Token::Close, Token::Close)
        | (Token::Comma, Token::Comma)
        | (Token::Point, Token::Point)
        | (Token::Dollar, Token::Dollar)
        | (Token::End, Token::End) => true,
        (Token::Key(key), Token::Key(other)) => key.as_str() == other.as_str(),
        _ => false,
    }
}

/// What a name before `(` calls, if it is one of the calls.
pub fn function(placed: &Placed) -> Option<Function>
    ensures { result ≡ spec_function placed.now }
{
    match &placed.token {
        Token::Name(name) if placed.called => function_of(name.as_str()),
        _ => None,
    }
}

/// The name or the text that may be a part of a path.
pub fn part(token: &Token) -> Option<&Text>
    ensures { option_copied result ≡ part_as token.now }
{
    match token {
        Token::Name(part) => Some(part),
        Token::Quoted(part) => Some(part),
        _ => None,
    }
}

// Whether the byte cannot be in a part of a path.
fn is_break(byte: u8) -> bool
    ensures { result ≡ ((byte == 46) || (byte == 40) || (byte == 41)) }
{
    byte == b'.' || byte == b'(' || byte == b')'
}

fn has_break(text: &str) -> bool
    ensures { result ≡ list_any (λ b. (b == 46) || (b == 40) || (b == 41)) text.now }
{
    text.as_bytes().iter().any(|byte| is_break(*byte))
}

/// Whether a text may be a part of a path.
pub fn is_part(text: &str) -> bool
    ensures { result ≡ spec_is_part text.now }
{
    !text.is_empty() && !has_break(text)
}

fn is_collection(text: &str) -> bool
    ensures { result ≡ spec_is_collection text.now }
{
    match text.as_bytes() {
        [] => true,
        [first, ..] => *first != b'@' || text == "@empty",
    }
}

/// The name or the text that may be a collection.
pub fn collection(token: &Token) -> Option<&Text>
    ensures { option_copied result ≡ option_and_then if_collection (part_as token.now) }
{
    let part = part(token)?;
    if is_collection(part.as_str()) {
        Some(part)
    } else {
        None
    }
}

/// A value of one token.
pub fn constant(token: &Token) -> Result<Option<Scalar>, NoMemory>
    ensures { IfOk result (λ value. option_map scalar_view value ≡ constant_as token.now) }
{
    Ok(match token {
        Token::Quoted(text) => Some(Scalar::Text(text.clone()?)),
        Token::Number(number) => Some(Scalar::Num(i128::from(*number))),
        Token::Key(KeyWord::True) => Some(Scalar::Flag(true)),
        Token::Key(KeyWord::False) => Some(Scalar::Flag(false)),
        Token::Key(KeyWord::Null) => Some(Scalar::Null),
        _ => None,
    })
}

/// A sign between a field and a value.
pub fn operator(token: &Token) -> Option<CompareOp>
    ensures { option_map op_of result ≡ operator_as token.now }
{
    match token {
        Token::Equal => Some(CompareOp::Is),
        Token::NotEqual => Some(CompareOp::Not),
        Token::Below => Some(CompareOp::Below),
        Token::AtMost => Some(CompareOp::AtMost),
        Token::Above => Some(CompareOp::Above),
        Token::AtLeast => Some(CompareOp::AtLeast),
        _ => None,
    }
}

/// Whether a name asks that values are compared as numbers, or as texts.
pub fn long_of(name: &str) -> Option<bool>
    ensures { result ≡ spec_long_of name.now }
{
    if "long".eq_ignore_ascii_case(name) {
        Some(true)
    } else if "string".eq_ignore_ascii_case(name) {
        Some(false)
    } else {
        None
    }
}

fn is_either(name: &str, short: &str, long: &str) -> bool
    ensures { result ≡ (is_word short.now name.now || is_word long.now name.now) }
{
    short.eq_ignore_ascii_case(name) || long.eq_ignore_ascii_case(name)
}

/// Whether a name asks that the greatest value comes first, or the least.
pub fn desc_of(name: &str) -> Option<bool>
    ensures { result ≡ spec_desc_of name.now }
{
    if is_either(name, "asc", "ascending") {
        Some(false)
    } else if is_either(name, "desc", "descending") {
        Some(true)
    } else {
        None
    }
}
