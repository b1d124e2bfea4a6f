//! The longest token that bytes begin with.
ghost use Rattle.std.specs.Prelude.{◌≡◌, ◌<◌, ◌≤◌, ◌∷◌, IfOk, IsUtf8, length, drop, true};
ghost use Rattle.rql_tokens.specs.Spelling.{is_quote as spec_is_quote, word_of};
ghost use Rattle.rql_tokens.specs.Tokens.{first_token};
ghost use Rattle.rql_tokens.specs.Passes.{word_prefix, number_prefix, negative_prefix, quoted_prefix, mark_prefix};

use crate::classes::{is_quote, number_len};
use crate::key_words::key_of;
use crate::marks::{double, single};
use crate::numbers::{negative, positive};
use crate::token::Token;
use exact_tokens::{is_digit, is_letter, quoted, word};
use raven_base::NoMemory;
use raven_value::Text;
use std::alloc::Global;

fn word_token(word: Text) -> Token
    ensures { result ≡ word_of word }
{
    match key_of(word.as_str()) {
        Some(key) => Token::Key(key),
        None => Token::Name(word),
    }
}

fn word_at(alloc: Global, bytes: &[u8]) -> Result<(Token, usize), NoMemory>
    requires { IsUtf8 bytes.now }
    ensures token { IfOk result (λ found. found ≡ word_prefix bytes.now) }
    ensures rest { IfOk result (λ found. IsUtf8 (drop found.1 bytes.now)) }
{
    let (word, len) = word(alloc, bytes)?;
    Ok((word_token(Text::of_string(word)?), len))
}

fn number_at(bytes: &[u8]) -> (Token, usize)
    requires { IsUtf8 bytes.now }
    ensures token { result ≡ number_prefix bytes.now }
    ensures rest { IsUtf8 (drop result.1 bytes.now) }
{
    let len = number_len(bytes);
    (positive(&bytes[..len]), len)
}

#[tactic(auto, using(crate::proofs::RunLemmas::negatives))]
fn negative_at(bytes: &[u8], behind: &[u8]) -> (Token, usize)
    requires minus { bytes.now ≡ 45 ∷ behind.now }
    requires utf8 { IsUtf8 bytes.now }
    ensures token { result ≡ negative_prefix bytes.now behind.now }
    ensures rest { IsUtf8 (drop result.1 bytes.now) }
{
    let Some((first, _)) = behind.split_first() else {
        return (Token::Bad, bytes.len());
    };
    if !is_digit(*first) {
        return (Token::Bad, bytes.len());
    }
    let len = number_len(behind);
    (negative(&behind[..len]), len + 1)
}

#[tactic(auto, using(crate::proofs::QuoteLemmas::quotes, exact_tokens::proofs::Seams::seams))]
fn quoted_at(
    alloc: Global,
    quote: u8,
    bytes: &[u8],
    behind: &[u8],
) -> Result<(Token, usize), NoMemory>
    requires a_quote { spec_is_quote quote ≡ true }
    requires first { bytes.now ≡ quote ∷ behind.now }
    requires utf8 { IsUtf8 bytes.now }
    ensures token { IfOk result (λ found. found ≡ quoted_prefix quote bytes.now behind.now) }
    ensures rest { IfOk result (λ found. IsUtf8 (drop found.1 bytes.now)) }
{
    let escapes = [(quote, quote), (b'\\', b'\\')];
    match quoted(alloc, quote, &escapes, behind)? {
        Some((text, len)) => Ok((Token::Quoted(Text::of_string(text)?), len + 1)),
        None => Ok((Token::Bad, bytes.len())),
    }
}

#[tactic(auto, using(exact_tokens::proofs::MarkLemmas::marks))]
fn mark_at(bytes: &[u8]) -> (Token, usize)
    requires { IsUtf8 bytes.now }
    ensures token { result ≡ mark_prefix bytes.now }
    ensures rest { IsUtf8 (drop result.1 bytes.now) }
{
    let Some((first, behind)) = bytes.split_first() else {
        return (Token::Bad, 0);
    };
    if let Some((second, _)) = behind.split_first() {
        if let Some(token) = double(*first, *second) {
            return (token, 2);
        }
    }
    match single(*first) {
        Some(token) => (token, 1),
        None => (Token::Bad, bytes.len()),
    }
}

/// The longest token that the bytes begin with, and how many of them spell it.
#[tactic(auto, using(crate::proofs::PrefixLemmas::prefixes))]
pub fn first_token(alloc: Global, bytes: &[u8]) -> Result<(Token, usize), NoMemory>
    requires { IsUtf8 bytes.now }
    ensures token { IfOk result (λ found. found ≡ first_token bytes.now) }
    ensures rest { IfOk result (λ found. IsUtf8 (drop found.1 bytes.now)) }
{
    let Some((first, behind)) = bytes.split_first() else {
        return Ok((Token::Bad, 0));
    };
    if is_letter(*first) {
        word_at(alloc, bytes)
    } else if is_digit(*first) {
        Ok(number_at(bytes))
    } else if *first == b'-' {
        Ok(negative_at(bytes, behind))
    } else if is_quote(*first) {
        quoted_at(alloc, *first, bytes, behind)
    } else {
        Ok(mark_at(bytes))
    }
}
