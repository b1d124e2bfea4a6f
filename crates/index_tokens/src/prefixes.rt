//! The longest token that bytes begin with.
ghost use Rattle.std.specs.Prelude.{◌≡◌, ◌<◌, ◌≤◌, ◌∷◌, IfOk, IsUtf8, length, drop};
ghost use Rattle.index_tokens.specs.Tokens.{first_token};
ghost use Rattle.index_tokens.specs.Passes.{word_prefix, number_prefix, quoted_prefix, mark_prefix};

use crate::marks::{double, single};
use crate::numbers::{digits_len, number_of};
use crate::token::Token;
use exact_tokens::{is_digit, is_letter, quoted, word};
use raven_base::NoMemory;
use raven_value::Text;
use std::alloc::Global;

fn word_at(alloc: Global, bytes: &[u8]) -> Result<(Token, usize), NoMemory>
    requires { IsUtf8 bytes.now }
    ensures token { IfOk result (λ found. found ≡ word_prefix bytes.now) }
    ensures rest { IfOk result (λ found. IsUtf8 (drop found.1 bytes.now)) }
{
    let (word, len) = word(alloc, bytes)?;
    Ok((Token::Word(Text::of_string(word)?), len))
}

fn number_at(bytes: &[u8]) -> (Token, usize)
    requires { IsUtf8 bytes.now }
    ensures token { result ≡ number_prefix bytes.now }
    ensures rest { IsUtf8 (drop result.1 bytes.now) }
{
    let len = digits_len(bytes);
    (number_of(&bytes[..len]), len)
}

#[tactic(auto, using(exact_tokens::proofs::Seams::seams))]
fn quoted_at(alloc: Global, bytes: &[u8], behind: &[u8]) -> Result<(Token, usize), NoMemory>
    requires quote { bytes.now ≡ 34 ∷ behind.now }
    requires utf8 { IsUtf8 bytes.now }
    ensures token { IfOk result (λ found. found ≡ quoted_prefix bytes.now behind.now) }
    ensures rest { IfOk result (λ found. IsUtf8 (drop found.1 bytes.now)) }
{
    let escapes = [
        (b'"', b'"'),
        (b'\\', b'\\'),
        (b'n', b'\n'),
        (b'r', b'\r'),
        (b't', b'\t'),
    ];
    match quoted(alloc, b'"', &escapes, behind)? {
        Some((text, len)) => Ok((Token::Quoted(Text::of_string(text)?), len + 1)),
        None => Ok((Token::Bad, bytes.len())),
    }
}

#[tactic(auto, using(exact_tokens::proofs::MarkLemmas::marks))]
fn mark_at(bytes: &[u8]) -> (Token, usize)
    requires { IsUtf8 bytes.now }
    ensures token { result ≡ mark_prefix bytes.now }
    ensures rest { IsUtf8 (drop result.1 bytes.now) }
{
    let Some((first, behind)) = bytes.split_first() else {
        return (Token::Bad, 0);
    };
    if let Some((second, _)) = behind.split_first() {
        if let Some(token) = double(*first, *second) {
            return (token, 2);
        }
    }
    match single(*first) {
        Some(token) => (token, 1),
        None => (Token::Bad, bytes.len()),
    }
}

/// The longest token that the bytes begin with, and how many of them spell it.
#[tactic(auto, using(crate::proofs::PrefixLemmas::prefixes))]
pub fn first_token(alloc: Global, bytes: &[u8]) -> Result<(Token, usize), NoMemory>
    requires { IsUtf8 bytes.now }
    ensures token { IfOk result (λ found. found ≡ first_token bytes.now) }
    ensures rest { IfOk result (λ found. IsUtf8 (drop found.1 bytes.now)) }
{
    let Some((first, behind)) = bytes.split_first() else {
        return Ok((Token::Bad, 0));
    };
    if is_letter(*first) {
        word_at(alloc, bytes)
    } else if is_digit(*first) {
        Ok(number_at(bytes))
    } else if *first == b'"' {
        quoted_at(alloc, bytes, behind)
    } else {
        Ok(mark_at(bytes))
    }
}
