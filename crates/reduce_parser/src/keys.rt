//! The rules of the keys of reduces.
ghost use Rattle.std.specs.Prelude.{◌≡◌, ◌≤◌, ◌∷◌, [], IfOk, length};
ghost use Rattle.reduce_grammar.specs.Reduces.{parts_of as spec_parts_of};
ghost use Rattle.reduce_grammar.specs.ReduceReading as spec;
ghost use Rattle.token_reader.specs.Gives.{Gives};

use crate::words::is_variable;
use index_tokens::Token;
use index_tree::Texts;
use raven_base::NoMemory;
use raven_value::Text;
use reduce_grammar::{KeyForm, SpelledKey};
use std::alloc::Global;
use token_reader::{Stop, Tokens, is_word};

fn one_text(alloc: Global, text: Text) -> Result<Texts, NoMemory>
    ensures { IfOk result (λ texts. texts ≡ text ∷ []) }
{
    let mut texts = Texts::new(alloc);
    texts.push(text)?;
    Ok(texts)
}

/// The names of the parts of a key.
pub fn parts_of(alloc: Global, form: KeyForm) -> Result<Texts, NoMemory>
    ensures { IfOk result (λ parts. parts ≡ spec_parts_of form) }
{
    match form {
        KeyForm::Alone(name) => one_text(alloc, name),
        KeyForm::New(parts) => Ok(parts),
    }
}

// A part of a key in `new { }`.
#[tactic(auto, unfolding(reduce_grammar::specs::ReduceReading::part))]
fn part(tokens: &mut Tokens<'_>) -> Result<Text, Stop>
    ensures read { Gives (spec.part tokens.old.count tokens.old.rest.now) result tokens.new.count tokens.new.rest.now }
    ensures fits { IfOk result (λ name. length tokens.new.rest.now ≤ length tokens.old.rest.now) }
{
    tokens.variable()?;
    tokens.mark(&Token::Point)?;
    tokens.name()
}

// Goes on after the parts found.
fn parts(tokens: &mut Tokens<'_>, mut found: Texts) -> Result<Texts, Stop>
    ensures { Gives (spec.parts found tokens.old.count tokens.old.rest.now) result tokens.new.count tokens.new.rest.now }
{
    while tokens.pass(&Token::Comma) {
        let part = part(tokens)?;
        found.push(part)?;
    }
    Ok(found)
}

#[tactic(auto, unfolding(reduce_grammar::specs::ReduceReading::key_alone))]
fn key_alone(tokens: &mut Tokens<'_>, at: usize) -> Result<SpelledKey, Stop>
    ensures { Gives (spec.key_alone at tokens.old.count tokens.old.rest.now) result tokens.new.count tokens.new.rest.now }
{
    tokens.mark(&Token::Point)?;
    let name = tokens.name()?;
    Ok(SpelledKey {
        at,
        form: KeyForm::Alone(name),
    })
}

#[tactic(auto, unfolding(reduce_grammar::specs::ReduceReading::key_in_new))]
fn key_in_new(tokens: &mut Tokens<'_>, at: usize) -> Result<SpelledKey, Stop>
    ensures { Gives (spec.key_in_new at tokens.old.count tokens.old.rest.now) result tokens.new.count tokens.new.rest.now }
{
    tokens.mark(&Token::OpenBrace)?;
    let first = part(tokens)?;
    let found = one_text(tokens.alloc, first)?;
    let parts = parts(tokens, found)?;
    tokens.mark(&Token::CloseBrace)?;
    Ok(SpelledKey {
        at,
        form: KeyForm::New(parts),
    })
}

/// The key by which entries are grouped.
#[tactic(auto, unfolding(reduce_grammar::specs::ReduceReading::key))]
pub fn key(tokens: &mut Tokens<'_>) -> Result<SpelledKey, Stop>
    ensures { Gives (spec.key tokens.old.count tokens.old.rest.now) result tokens.new.count tokens.new.rest.now }
{
    let Some((first, rest)) = tokens.rest.split_first() else {
        return Err(Stop::Unexpected);
    };
    if is_word("new", &first.token) {
        tokens.rest = rest;
        key_in_new(tokens, first.at)
    } else if is_variable(&first.token) {
        tokens.rest = rest;
        key_alone(tokens, first.at)
    } else {
        Err(Stop::Unexpected)
    }
}
