//! The rules of fields and values.
ghost use Rattle.rql_tokens.specs.declared.token.Token.TheVariants as t;
ghost use Rattle.rql_grammar.specs.FieldReading as spec;
ghost use Rattle.rql_tree.specs.View.{field_of, operand_of};
ghost use Rattle.rql_parser.specs.Gives.{Gives, GivesAs};
ghost use Rattle.rql_parser.specs.Parts.{counted_call, summed_call};
ghost use Rattle.std.specs.Prelude.{map};

use crate::stop::Stop;
use crate::tokens::Tokens;
use raven_value::{Path, Paths};
use rql_tokens::{Function, Token};
use rql_tree::{Field, Operand, Operands};

fn path(tokens: &mut Tokens<'_>) -> Result<Path, Stop>
    ensures { Gives (spec.path tokens.old.count tokens.old.rest.now) result tokens.new.count tokens.new.rest.now }
{
    let first = tokens.part()?;
    let path = Path::of(tokens.alloc, first)?;
    further_parts(tokens, path)
}

// Goes on with the parts behind points.
fn further_parts(tokens: &mut Tokens<'_>, mut path: Path) -> Result<Path, Stop>
    ensures { Gives (spec.chain t.Point spec.one_part spec.added path tokens.old.count tokens.old.rest.now) result tokens.new.count tokens.new.rest.now }
{
    while tokens.is_at(&Token::Point) {
        tokens.skip();
        let part = tokens.part()?;
        path.push(part)?;
    }
    Ok(path)
}

// A path that counts as a field.
#[tactic(auto, using(crate::proofs::Rules::counted))]
fn counted_path(tokens: &mut Tokens<'_>) -> Result<Path, Stop>
    ensures { Gives (spec.counted_path tokens.old.count tokens.old.rest.now) result tokens.new.count tokens.new.rest.now }
{
    tokens.count_field()?;
    path(tokens)
}

/// Paths that count as fields, with commas between them.
pub fn paths(tokens: &mut Tokens<'_>) -> Result<Paths, Stop>
    ensures { Gives (spec.list t.Comma spec.counted_path tokens.old.count tokens.old.rest.now) result tokens.new.count tokens.new.rest.now }
{
    let first = counted_path(tokens)?;
    let mut paths = Paths::new(tokens.alloc);
    paths.push(first)?;
    further_paths(tokens, paths)
}

// Goes on with the paths behind commas.
fn further_paths(tokens: &mut Tokens<'_>, mut paths: Paths) -> Result<Paths, Stop>
    ensures { Gives (spec.chain t.Comma spec.counted_path spec.added paths tokens.old.count tokens.old.rest.now) result tokens.new.count tokens.new.rest.now }
{
    while tokens.is_at(&Token::Comma) {
        tokens.skip();
        let path = counted_path(tokens)?;
        paths.push(path)?;
    }
    Ok(paths)
}

// `count()`
fn count_call(tokens: &mut Tokens<'_>) -> Result<Field, Stop>
    ensures { GivesAs field_of (counted_call tokens.old.count tokens.old.rest.now) result tokens.new.count tokens.new.rest.now }
{
    tokens.skip();
    tokens.mark(&Token::Open)?;
    tokens.mark(&Token::Close)?;
    Ok(Field::Count)
}

// `sum(..)`
fn sum_call(tokens: &mut Tokens<'_>) -> Result<Field, Stop>
    ensures { GivesAs field_of (summed_call tokens.old.count tokens.old.rest.now) result tokens.new.count tokens.new.rest.now }
{
    tokens.skip();
    tokens.mark(&Token::Open)?;
    let path = path(tokens)?;
    tokens.mark(&Token::Close)?;
    Ok(Field::Sum(path))
}

#[tactic(auto, using(crate::proofs::Rules::inside))]
fn uncounted_field(tokens: &mut Tokens<'_>) -> Result<Field, Stop>
    ensures { GivesAs field_of (spec.inside tokens.old.count tokens.old.rest.now) result tokens.new.count tokens.new.rest.now }
{
    match tokens.function() {
        Some(Function::Count) => count_call(tokens),
        Some(Function::Sum) => sum_call(tokens),
        _ => Ok(Field::Path(path(tokens)?)),
    }
}

/// A field.
#[tactic(auto, using(crate::proofs::Rules::counted))]
pub fn field(tokens: &mut Tokens<'_>) -> Result<Field, Stop>
    ensures { GivesAs field_of (spec.field tokens.old.count tokens.old.rest.now) result tokens.new.count tokens.new.rest.now }
{
    tokens.count_field()?;
    uncounted_field(tokens)
}

/// A value, or a parameter.
#[tactic(auto, using(crate::proofs::Rules::values))]
pub fn value(tokens: &mut Tokens<'_>) -> Result<Operand, Stop>
    ensures { GivesAs operand_of (spec.value tokens.old.count tokens.old.rest.now) result tokens.new.count tokens.new.rest.now }
{
    if let Some(value) = tokens.constant()? {
        tokens.skip();
        return Ok(Operand::Const(value));
    }
    tokens.mark(&Token::Dollar)?;
    Ok(Operand::Parameter(tokens.name()?))
}

/// Values with commas between them.
pub fn values(tokens: &mut Tokens<'_>) -> Result<Operands, Stop>
    ensures { GivesAs (map operand_of) (spec.list t.Comma spec.value tokens.old.count tokens.old.rest.now) result tokens.new.count tokens.new.rest.now }
{
    let first = value(tokens)?;
    let mut values = Operands::new(tokens.alloc);
    values.push(first)?;
    further_values(tokens, values)
}

// Goes on with the values behind commas.
fn further_values(tokens: &mut Tokens<'_>, mut values: Operands) -> Result<Operands, Stop>
    ensures { GivesAs (map operand_of) (spec.chain t.Comma spec.value spec.added (map operand_of values) tokens.old.count tokens.old.rest.now) result tokens.new.count tokens.new.rest.now }
{
    while tokens.is_at(&Token::Comma) {
        tokens.skip();
        let value = value(tokens)?;
        values.push(value)?;
    }
    Ok(values)
}
