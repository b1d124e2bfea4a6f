//! Which words a token may be.
ghost use Rattle.std.specs.Prelude.{◌≡◌, is_some};
ghost use Rattle.index_tokens.specs.Words.{name_as, variable_as};
ghost use Rattle.reduce_grammar.specs.Reduces.{fold_word as spec_fold_word, fold_as};

use index_tokens::{Token, is_reserved};
use index_tree::FoldKind;

fn fold_word(word: &str) -> Option<FoldKind>
    ensures { result ≡ spec_fold_word word.now }
{
    if word == "Sum" {
        Some(FoldKind::Sum)
    } else if word == "Min" {
        Some(FoldKind::Min)
    } else if word == "Max" {
        Some(FoldKind::Max)
    } else {
        None
    }
}

/// The fold of which the token is the word.
pub fn fold_of(token: &Token) -> Option<FoldKind>
    ensures { result ≡ fold_as token.now }
{
    match token {
        Token::Word(word) => fold_word(word.as_str()),
        _ => None,
    }
}

/// Whether the token is a variable, which is no reserved word.
pub fn is_variable(token: &Token) -> bool
    ensures { result ≡ is_some (variable_as token.now) }
{
    match token {
        Token::Word(word) => !is_reserved(word.as_str()),
        _ => false,
    }
}

/// Whether the token is a word.
pub fn is_any_word(token: &Token) -> bool
    ensures { result ≡ is_some (name_as token.now) }
{
    matches!(token, Token::Word(_))
}
