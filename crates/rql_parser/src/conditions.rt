//! The rules of conditions. `room` is how many parts may still be opened within one another.
ghost use Rattle.std.specs.Prelude.{◌≤◌};
ghost use Rattle.exact_parse.specs.Steps.{head};
ghost use Rattle.spec_query.specs.Query as query;
ghost use Rattle.rql_tokens.specs.declared.key_words.KeyWord.TheVariants as k;
ghost use Rattle.rql_tokens.specs.declared.token.Token.TheVariants as t;
ghost use Rattle.rql_grammar.specs.FieldReading.{chain};
ghost use Rattle.rql_grammar.specs.ConditionReading as spec;
ghost use Rattle.rql_grammar.specs.ConditionReading.{deeper_of};
ghost use Rattle.rql_tree.specs.View.{field_of, op_of};
ghost use Rattle.rql_parser.specs.Gives.{Gives};
ghost use Rattle.rql_parser.specs.Parts.{starts_call, exists_call};

use crate::fields::{field, value, values};
use crate::stop::Stop;
use crate::tokens::Tokens;
use rql_tokens::{Function, KeyWord, Token};
use rql_tree::{CompareOp, Cond, CondKind, Field};

const MAX_OPEN: usize = 64;

/// A condition.
#[tactic(auto, unfolding(rql_grammar::specs::ConditionReading::condition))]
pub fn condition(tokens: &mut Tokens<'_>) -> Result<Cond, Stop>
    ensures { Gives (spec.condition tokens.old.count tokens.old.rest.now) result tokens.new.count tokens.new.rest.now }
{
    whole(tokens, MAX_OPEN)
}

#[cycle(cond)]
#[tactic(auto, unfolding(rql_grammar::specs::ConditionReading::whole))]
fn whole(tokens: &mut Tokens<'_>, room: usize) -> Result<Cond, Stop>
    requires { room ≤ 64 }
    ensures { Gives (spec.whole (deeper_of room) tokens.old.count tokens.old.rest.now) result tokens.new.count tokens.new.rest.now }
{
    let left = conjunction(tokens, room)?;
    ors(tokens, room, left)
}

// Goes on with what `or` stands before.
#[cycle(cond)]
fn ors(tokens: &mut Tokens<'_>, room: usize, mut left: Cond) -> Result<Cond, Stop>
    requires { room ≤ 64 }
    ensures { Gives (chain (t.Key k.Or) (spec.conjunction (deeper_of room)) query.Cond.Or left tokens.old.count tokens.old.rest.now) result tokens.new.count tokens.new.rest.now }
{
    while tokens.is_at(&Token::Key(KeyWord::Or)) {
        tokens.skip();
        let right = conjunction(tokens, room)?;
        left = Cond::of(tokens.alloc, CondKind::Or(left, right))?;
    }
    Ok(left)
}

#[cycle(cond)]
#[tactic(auto, unfolding(rql_grammar::specs::ConditionReading::conjunction))]
fn conjunction(tokens: &mut Tokens<'_>, room: usize) -> Result<Cond, Stop>
    requires { room ≤ 64 }
    ensures { Gives (spec.conjunction (deeper_of room) tokens.old.count tokens.old.rest.now) result tokens.new.count tokens.new.rest.now }
{
    let left = negation(tokens, room)?;
    ands(tokens, room, left)
}

// Goes on with what `and` stands before.
#[cycle(cond)]
fn ands(tokens: &mut Tokens<'_>, room: usize, mut left: Cond) -> Result<Cond, Stop>
    requires { room ≤ 64 }
    ensures { Gives (chain (t.Key k.And) (spec.negation (deeper_of room)) query.Cond.And left tokens.old.count tokens.old.rest.now) result tokens.new.count tokens.new.rest.now }
{
    while tokens.is_at(&Token::Key(KeyWord::And)) {
        tokens.skip();
        let right = negation(tokens, room)?;
        left = Cond::of(tokens.alloc, CondKind::And(left, right))?;
    }
    Ok(left)
}

#[cycle(cond)]
#[tactic(auto, unfolding(rql_grammar::specs::ConditionReading::negation))]
fn negation(tokens: &mut Tokens<'_>, room: usize) -> Result<Cond, Stop>
    requires { room ≤ 64 }
    ensures { Gives (spec.negation (deeper_of room) tokens.old.count tokens.old.rest.now) result tokens.new.count tokens.new.rest.now }
{
    if !tokens.is_at(&Token::Key(KeyWord::Not)) {
        return test(tokens, room);
    }
    if room == 0 {
        return Err(Stop::TooLarge);
    }
    tokens.skip();
    let inner = negation(tokens, room - 1)?;
    Ok(Cond::of(tokens.alloc, CondKind::Not(inner))?)
}

#[cycle(cond)]
#[tactic(auto, using(crate::proofs::ConditionRules::tests))]
fn test(tokens: &mut Tokens<'_>, room: usize) -> Result<Cond, Stop>
    requires { room ≤ 64 }
    ensures { Gives (spec.one_test (deeper_of room) tokens.old.count tokens.old.rest.now) result tokens.new.count tokens.new.rest.now }
{
    match tokens.function() {
        Some(Function::StartsWith) => starting(tokens),
        Some(Function::Exists) => existing(tokens),
        _ => plain_test(tokens, room),
    }
}

// A test that is no call.
#[cycle(cond)]
fn plain_test(tokens: &mut Tokens<'_>, room: usize) -> Result<Cond, Stop>
    requires { room ≤ 64 }
    ensures { Gives (spec.plain_test (deeper_of room) (head tokens.old.rest.now) tokens.old.count tokens.old.rest.now) result tokens.new.count tokens.new.rest.now }
{
    if tokens.is_at(&Token::Open) {
        parentheses(tokens, room)
    } else if tokens.is_at(&Token::Key(KeyWord::Exact)) {
        exactly(tokens, room)
    } else if tokens.is_at(&Token::Key(KeyWord::True)) {
        let always = Cond::of(tokens.alloc, CondKind::True)?;
        tokens.skip();
        Ok(always)
    } else {
        comparison(tokens)
    }
}

#[cycle(cond)]
fn parentheses(tokens: &mut Tokens<'_>, room: usize) -> Result<Cond, Stop>
    requires { room ≤ 64 }
    ensures { Gives (spec.parentheses (deeper_of room) tokens.old.count tokens.old.rest.now) result tokens.new.count tokens.new.rest.now }
{
    if room == 0 {
        return Err(Stop::TooLarge);
    }
    tokens.skip();
    let inner = whole(tokens, room - 1)?;
    tokens.mark(&Token::Close)?;
    Ok(inner)
}

#[cycle(cond)]
fn exactly(tokens: &mut Tokens<'_>, room: usize) -> Result<Cond, Stop>
    requires { room ≤ 64 }
    ensures { Gives (spec.exact_test (deeper_of room) tokens.old.count tokens.old.rest.now) result tokens.new.count tokens.new.rest.now }
{
    if room == 0 {
        return Err(Stop::TooLarge);
    }
    tokens.skip();
    tokens.mark(&Token::Open)?;
    let inner = whole(tokens, room - 1)?;
    tokens.mark(&Token::Close)?;
    Ok(Cond::of(tokens.alloc, CondKind::Exact(inner))?)
}

// `startsWith(..)`
fn starting(tokens: &mut Tokens<'_>) -> Result<Cond, Stop>
    ensures { Gives (starts_call tokens.old.count tokens.old.rest.now) result tokens.new.count tokens.new.rest.now }
{
    tokens.skip();
    tokens.mark(&Token::Open)?;
    let field = field(tokens)?;
    tokens.mark(&Token::Comma)?;
    let value = value(tokens)?;
    tokens.mark(&Token::Close)?;
    Ok(Cond::of(tokens.alloc, CondKind::Starts(field, value))?)
}

// `exists(..)`
fn existing(tokens: &mut Tokens<'_>) -> Result<Cond, Stop>
    ensures { Gives (exists_call tokens.old.count tokens.old.rest.now) result tokens.new.count tokens.new.rest.now }
{
    tokens.skip();
    tokens.mark(&Token::Open)?;
    let field = field(tokens)?;
    tokens.mark(&Token::Close)?;
    Ok(Cond::of(tokens.alloc, CondKind::Exists(field))?)
}

#[tactic(auto, unfolding(rql_grammar::specs::ConditionReading::comparison))]
fn comparison(tokens: &mut Tokens<'_>) -> Result<Cond, Stop>
    ensures { Gives (spec.comparison tokens.old.count tokens.old.rest.now) result tokens.new.count tokens.new.rest.now }
{
    let field = field(tokens)?;
    behind_field(tokens, field)
}

// What follows the field of a comparison.
#[tactic(auto, using(crate::proofs::ConditionRules::behind))]
fn behind_field(tokens: &mut Tokens<'_>, field: Field) -> Result<Cond, Stop>
    ensures { Gives (spec.behind_field (field_of field) tokens.old.count tokens.old.rest.now) result tokens.new.count tokens.new.rest.now }
{
    if let Some(op) = tokens.operator() {
        tokens.skip();
        return compared(tokens, field, op);
    }
    if tokens.is_at(&Token::Key(KeyWord::Between)) {
        tokens.skip();
        return ranged(tokens, field);
    }
    tokens.mark(&Token::Key(KeyWord::In))?;
    listed(tokens, field)
}

// What follows the sign of a comparison.
fn compared(tokens: &mut Tokens<'_>, field: Field, op: CompareOp) -> Result<Cond, Stop>
    ensures { Gives (spec.compared (field_of field) (op_of op) tokens.old.count tokens.old.rest.now) result tokens.new.count tokens.new.rest.now }
{
    let value = value(tokens)?;
    Ok(Cond::of(tokens.alloc, CondKind::Compare(field, op, value))?)
}

// What follows `between`.
fn ranged(tokens: &mut Tokens<'_>, field: Field) -> Result<Cond, Stop>
    ensures { Gives (spec.ranged (field_of field) tokens.old.count tokens.old.rest.now) result tokens.new.count tokens.new.rest.now }
{
    let low = value(tokens)?;
    tokens.mark(&Token::Key(KeyWord::And))?;
    let high = value(tokens)?;
    Ok(Cond::of(tokens.alloc, CondKind::Between(field, low, high))?)
}

// What follows `in`.
fn listed(tokens: &mut Tokens<'_>, field: Field) -> Result<Cond, Stop>
    ensures { Gives (spec.listed (field_of field) tokens.old.count tokens.old.rest.now) result tokens.new.count tokens.new.rest.now }
{
    tokens.mark(&Token::Open)?;
    let values = values(tokens)?;
    tokens.mark(&Token::Close)?;
    Ok(Cond::of(tokens.alloc, CondKind::In(field, values))?)
}
