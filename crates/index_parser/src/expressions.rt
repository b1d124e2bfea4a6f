//! The rules of expressions. `room` is how many parts may still be opened within one another.
ghost use Rattle.std.specs.Prelude.{◌≤◌, ◌<◌, ◌-◌};
ghost use Rattle.index_grammar.specs.ExpressionReading as spec;
ghost use Rattle.index_grammar.specs.ExpressionReading.{deeper_of};
ghost use Rattle.index_parser.specs.Parts.{single};
ghost use Rattle.index_tree.specs.View.{tree_of};
ghost use Rattle.token_reader.specs.Gives.{Gives};

use crate::operators::{operator_at, sign_at};
use index_tokens::{Token, is_reserved};
use index_tree::{Expr, ExprKind};
use token_reader::{Stop, Tokens};

const MAX_OPEN: usize = 64;

const MAX_OPERATORS: usize = 256;

const LOOSEST: usize = 6;

/// An expression of its own, whose operators and points are counted anew.
#[tactic(auto, unfolding(index_grammar::specs::ExpressionReading::expression))]
pub fn expression(tokens: &mut Tokens<'_>) -> Result<Expr, Stop>
    ensures { Gives (spec.expression tokens.old.count tokens.old.rest.now) result tokens.new.count tokens.new.rest.now }
{
    tokens.count = 0;
    whole(tokens, MAX_OPEN)
}

/// Goes on with the names behind points.
pub fn points(tokens: &mut Tokens<'_>, mut value: Expr) -> Result<Expr, Stop>
    ensures { Gives (spec.points value tokens.old.count tokens.old.rest.now) result tokens.new.count tokens.new.rest.now }
{
    while tokens.is_at(&Token::Point) {
        if tokens.count >= MAX_OPERATORS {
            return Err(Stop::TooLarge);
        }
        tokens.count += 1;
        tokens.skip();
        let name = tokens.name()?;
        value = Expr::of(tokens.alloc, ExprKind::Dot(value, name))?;
    }
    Ok(value)
}

#[cycle(expr)]
#[tactic(auto, unfolding(index_grammar::specs::ExpressionReading::whole))]
fn whole(tokens: &mut Tokens<'_>, room: usize) -> Result<Expr, Stop>
    requires { room ≤ 64 }
    ensures { Gives (spec.whole (deeper_of room) tokens.old.count tokens.old.rest.now) result tokens.new.count tokens.new.rest.now }
{
    let test = binary(tokens, room, LOOSEST)?;
    conditional(tokens, room, test)
}

#[cycle(expr)]
#[tactic(auto, unfolding(index_grammar::specs::ExpressionReading::conditional))]
fn conditional(tokens: &mut Tokens<'_>, room: usize, test: Expr) -> Result<Expr, Stop>
    requires { room ≤ 64 }
    ensures { Gives (spec.conditional (deeper_of room) test tokens.old.count tokens.old.rest.now) result tokens.new.count tokens.new.rest.now }
{
    if !tokens.is_at(&Token::Question) {
        return Ok(test);
    }
    if room == 0 {
        return Err(Stop::TooLarge);
    }
    tokens.skip();
    let value = whole(tokens, room - 1)?;
    tokens.mark(&Token::Colon)?;
    let other = whole(tokens, room - 1)?;
    Ok(Expr::of(tokens.alloc, ExprKind::If(test, value, other))?)
}

#[cycle(expr)]
fn binary(tokens: &mut Tokens<'_>, room: usize, level: usize) -> Result<Expr, Stop>
    requires room { room ≤ 64 }
    requires level { level ≤ 6 }
    ensures { Gives (spec.level (deeper_of room) level tokens.old.count tokens.old.rest.now) result tokens.new.count tokens.new.rest.now }
{
    if level == 0 {
        return unary(tokens, room);
    }
    let left = binary(tokens, room, level - 1)?;
    climb(tokens, room, level, left)
}

// Goes on with the operators of a level.
#[cycle(expr)]
fn climb(tokens: &mut Tokens<'_>, room: usize, level: usize, mut left: Expr) -> Result<Expr, Stop>
    requires room { room ≤ 64 }
    requires low { 0 < level }
    requires high { level ≤ 6 }
    ensures { Gives (spec.climb (spec.level (deeper_of room) (level - 1)) level left tokens.old.count tokens.old.rest.now) result tokens.new.count tokens.new.rest.now }
{
    while let Some(operator) = operator_at(tokens, level) {
        if tokens.count >= MAX_OPERATORS {
            return Err(Stop::TooLarge);
        }
        tokens.count += 1;
        tokens.skip();
        let right = binary(tokens, room, level - 1)?;
        left = Expr::of(tokens.alloc, ExprKind::Binary(operator, left, right))?;
    }
    Ok(left)
}

#[cycle(expr)]
#[tactic(auto, unfolding(index_grammar::specs::ExpressionReading::unary))]
fn unary(tokens: &mut Tokens<'_>, room: usize) -> Result<Expr, Stop>
    requires { room ≤ 64 }
    ensures { Gives (spec.unary (deeper_of room) tokens.old.count tokens.old.rest.now) result tokens.new.count tokens.new.rest.now }
{
    let Some(operator) = sign_at(tokens) else {
        return post(tokens, room);
    };
    if room == 0 {
        return Err(Stop::TooLarge);
    }
    tokens.skip();
    let operand = unary(tokens, room - 1)?;
    Ok(Expr::of(tokens.alloc, ExprKind::Unary(operator, operand))?)
}

#[cycle(expr)]
#[tactic(auto, unfolding(index_grammar::specs::ExpressionReading::post))]
fn post(tokens: &mut Tokens<'_>, room: usize) -> Result<Expr, Stop>
    requires { room ≤ 64 }
    ensures { Gives (spec.post (deeper_of room) tokens.old.count tokens.old.rest.now) result tokens.new.count tokens.new.rest.now }
{
    let value = primary(tokens, room)?;
    points(tokens, value)
}

#[cycle(expr)]
#[tactic(auto, unfolding(index_grammar::specs::ExpressionReading::primary))]
fn primary(tokens: &mut Tokens<'_>, room: usize) -> Result<Expr, Stop>
    requires { room ≤ 64 }
    ensures { Gives (spec.primary (deeper_of room) tokens.old.count tokens.old.rest.now) result tokens.new.count tokens.new.rest.now }
{
    let Some(next) = tokens.rest.first() else {
        return Err(Stop::Unexpected);
    };
    match &next.token {
        Token::Number(number) => leaf(tokens, ExprKind::Num(*number)),
        Token::Quoted(text) => leaf(tokens, ExprKind::Text(text.clone()?)),
        Token::Word(word) if is_reserved(word.as_str()) => reserved(tokens, room, word.as_str()),
        Token::Word(word) => leaf(tokens, ExprKind::Var(word.clone()?)),
        Token::Open => parentheses(tokens, room),
        _ => Err(Stop::Unexpected),
    }
}

// A reserved word that is a value.
#[cycle(expr)]
fn reserved(tokens: &mut Tokens<'_>, room: usize, word: &str) -> Result<Expr, Stop>
    requires { room ≤ 64 }
    ensures { Gives (spec.reserved_primary (deeper_of room) word.now tokens.old.count tokens.old.rest.now) result tokens.new.count tokens.new.rest.now }
{
    if word == "true" {
        leaf(tokens, ExprKind::Flag(true))
    } else if word == "false" {
        leaf(tokens, ExprKind::Flag(false))
    } else if word == "null" {
        leaf(tokens, ExprKind::Null)
    } else if word == "LoadDocument" {
        tokens.skip();
        load(tokens, room)
    } else {
        Err(Stop::Unexpected)
    }
}

#[cycle(expr)]
fn parentheses(tokens: &mut Tokens<'_>, room: usize) -> Result<Expr, Stop>
    requires { room ≤ 64 }
    ensures { Gives (spec.parentheses (deeper_of room) tokens.old.count tokens.old.rest.now) result tokens.new.count tokens.new.rest.now }
{
    if room == 0 {
        return Err(Stop::TooLarge);
    }
    tokens.skip();
    let value = whole(tokens, room - 1)?;
    tokens.mark(&Token::Close)?;
    Ok(value)
}

// What follows the word `LoadDocument`.
#[cycle(expr)]
#[tactic(auto, unfolding(index_grammar::specs::ExpressionReading::load))]
fn load(tokens: &mut Tokens<'_>, room: usize) -> Result<Expr, Stop>
    requires { room ≤ 64 }
    ensures { Gives (spec.load (deeper_of room) tokens.old.count tokens.old.rest.now) result tokens.new.count tokens.new.rest.now }
{
    if !tokens.is_at(&Token::Open) {
        return Err(Stop::Unexpected);
    }
    if room == 0 {
        return Err(Stop::TooLarge);
    }
    tokens.skip();
    let id = whole(tokens, room - 1)?;
    tokens.mark(&Token::Comma)?;
    let collection = tokens.quoted()?;
    tokens.mark(&Token::Close)?;
    Ok(Expr::of(tokens.alloc, ExprKind::Load(id, collection))?)
}

// Passes the next token, which is this expression.
fn leaf(tokens: &mut Tokens<'_>, kind: ExprKind) -> Result<Expr, Stop>
    ensures { Gives (single (tree_of kind) tokens.old.count tokens.old.rest.now) result tokens.new.count tokens.new.rest.now }
{
    let leaf = Expr::of(tokens.alloc, kind)?;
    tokens.skip();
    Ok(leaf)
}
