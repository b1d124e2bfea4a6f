//! The rules of maps.
ghost use Rattle.std.specs.Prelude.{◌≡◌, [], IfOk};
ghost use Rattle.exact_parse.specs.Steps.{head};
ghost use Rattle.index_grammar.specs.MapReading as spec;
ghost use Rattle.index_grammar.specs.Maps.{last_name as spec_last_name};
ghost use Rattle.index_parser.specs.Parts.{clause_if_any};
ghost use Rattle.token_reader.specs.Gives.{Gives, Stops};

use crate::expressions::{expression, points};
use index_grammar::{Origin, PlacedMember, PlacedMembers, SpelledMap};
use index_tokens::{Placed, Token, is_reserved};
use index_tree::{Clause, Clauses, Expr, ExprKind, MapMember};
use raven_base::NoMemory;
use raven_value::Text;
use std::alloc::Global;
use token_reader::{Stop, Tokens};

const MAX_MEMBERS: usize = 64;

fn last_name(alloc: Global, value: &Expr) -> Result<Text, NoMemory>
    ensures { IfOk result (λ name. name ≡ spec_last_name value.now) }
{
    match value.kind() {
        ExprKind::Var(name) | ExprKind::Dot(_, name) => Ok(name.clone()?),
        _ => Text::of(alloc, ""),
    }
}

/// A map and the end.
#[tactic(auto, unfolding(index_grammar::specs::MapReading::map_text))]
pub fn map_text(tokens: &mut Tokens<'_>) -> Result<SpelledMap, Stop>
    ensures { Gives (spec.map_text tokens.old.count tokens.old.rest.now) result tokens.new.count tokens.new.rest.now }
{
    let origin = origin(tokens)?;
    let clauses = clauses(tokens)?;
    let members = entry(tokens)?;
    tokens.mark(&Token::End)?;
    Ok(SpelledMap {
        var: origin.var,
        collection: origin.collection,
        clauses,
        members,
    })
}

#[tactic(auto, unfolding(index_grammar::specs::MapReading::origin))]
fn origin(tokens: &mut Tokens<'_>) -> Result<Origin, Stop>
    ensures { Gives (spec.origin tokens.old.count tokens.old.rest.now) result tokens.new.count tokens.new.rest.now }
{
    tokens.word("from")?;
    let var = tokens.variable()?;
    tokens.word("in")?;
    tokens.word("docs")?;
    tokens.mark(&Token::Point)?;
    let collection = tokens.name()?;
    Ok(Origin { var, collection })
}

fn clauses(tokens: &mut Tokens<'_>) -> Result<Clauses, Stop>
    ensures { Gives (spec.clauses [] tokens.old.count tokens.old.rest.now) result tokens.new.count tokens.new.rest.now }
{
    let mut found = Clauses::new(tokens.alloc);
    while let Some(clause) = next_clause(tokens)? {
        found.push(clause)?;
    }
    Ok(found)
}

// The clause that comes next, if one does.
fn next_clause(tokens: &mut Tokens<'_>) -> Result<Option<Clause>, Stop>
    ensures { Gives (clause_if_any tokens.old.count tokens.old.rest.now) result tokens.new.count tokens.new.rest.now }
{
    if tokens.is_at_word("where") {
        tokens.skip();
        Ok(Some(filter(tokens)?))
    } else if tokens.is_at_word("let") {
        tokens.skip();
        Ok(Some(binding(tokens)?))
    } else {
        Ok(None)
    }
}

#[tactic(auto, unfolding(index_grammar::specs::MapReading::filter))]
fn filter(tokens: &mut Tokens<'_>) -> Result<Clause, Stop>
    ensures { Gives (spec.filter tokens.old.count tokens.old.rest.now) result tokens.new.count tokens.new.rest.now }
{
    Ok(Clause::Where(expression(tokens)?))
}

#[tactic(auto, unfolding(index_grammar::specs::MapReading::binding))]
fn binding(tokens: &mut Tokens<'_>) -> Result<Clause, Stop>
    ensures { Gives (spec.binding tokens.old.count tokens.old.rest.now) result tokens.new.count tokens.new.rest.now }
{
    let var = tokens.variable()?;
    tokens.mark(&Token::Assign)?;
    let value = expression(tokens)?;
    Ok(Clause::Let { var, value })
}

// From `select` on.
#[tactic(auto, unfolding(index_grammar::specs::MapReading::entry))]
fn entry(tokens: &mut Tokens<'_>) -> Result<PlacedMembers, Stop>
    ensures { Gives (spec.entry tokens.old.count tokens.old.rest.now) result tokens.new.count tokens.new.rest.now }
{
    tokens.word("select")?;
    tokens.word("new")?;
    tokens.mark(&Token::OpenBrace)?;
    members(tokens)
}

fn members(tokens: &mut Tokens<'_>) -> Result<PlacedMembers, Stop>
    ensures { Gives (spec.members 64 [] tokens.old.count tokens.old.rest.now) result tokens.new.count tokens.new.rest.now }
{
    let mut found = PlacedMembers::new(tokens.alloc);
    for _turn in 0..MAX_MEMBERS {
        found.push(member(tokens)?)?;
        if tokens.is_at(&Token::CloseBrace) {
            tokens.skip();
            return Ok(found);
        }
        tokens.mark(&Token::Comma)?;
        if tokens.is_at(&Token::CloseBrace) {
            tokens.skip();
            return Ok(found);
        }
    }
    Err(no_room(tokens))
}

// Why no member more is read.
fn no_room(tokens: &Tokens<'_>) -> Stop
    ensures { Stops (spec.no_room_by (head tokens.now.rest.now) tokens.now.count tokens.now.rest.now) result tokens.now.rest.now }
{
    match tokens.rest.first() {
        Some(
            Placed {
                token: Token::Word(_),
                ..
            },
        ) => Stop::TooLarge,
        _ => Stop::Unexpected,
    }
}

#[tactic(auto, unfolding(index_grammar::specs::MapReading::member))]
fn member(tokens: &mut Tokens<'_>) -> Result<PlacedMember, Stop>
    ensures { Gives (spec.member tokens.old.count tokens.old.rest.now) result tokens.new.count tokens.new.rest.now }
{
    let Some(next) = tokens.rest.first() else {
        return Err(Stop::Unexpected);
    };
    let name = tokens.name()?;
    if tokens.is_at(&Token::Assign) {
        tokens.skip();
        return value(tokens, next.at, name);
    }
    if is_reserved(name.as_str()) {
        return Err(Stop::Unexpected);
    }
    path(tokens, next.at, name)
}

// What follows the name of a member and `=`.
#[tactic(auto, unfolding(index_grammar::specs::MapReading::value))]
fn value(tokens: &mut Tokens<'_>, at: usize, name: Text) -> Result<PlacedMember, Stop>
    ensures { Gives (spec.value at name tokens.old.count tokens.old.rest.now) result tokens.new.count tokens.new.rest.now }
{
    let value = expression(tokens)?;
    Ok(PlacedMember {
        at,
        member: MapMember { name, value },
    })
}

// What follows the variable of a path.
#[tactic(auto, unfolding(index_grammar::specs::MapReading::path))]
fn path(tokens: &mut Tokens<'_>, at: usize, var: Text) -> Result<PlacedMember, Stop>
    ensures { Gives (spec.path at var tokens.old.count tokens.old.rest.now) result tokens.new.count tokens.new.rest.now }
{
    tokens.count = 0;
    let start = Expr::of(tokens.alloc, ExprKind::Var(var))?;
    let value = points(tokens, start)?;
    let name = last_name(tokens.alloc, &value)?;
    Ok(PlacedMember {
        at,
        member: MapMember { name, value },
    })
}
