//! The rules of the members of reduces.
ghost use Rattle.std.specs.Prelude.{◌≡◌, []};
ghost use Rattle.exact_parse.specs.Steps.{Read, choose};
ghost use Rattle.reduce_grammar.specs.ReduceReading as spec;
ghost use Rattle.token_reader.specs.Gives.{Gives, Stops};

use crate::words::{fold_of, is_any_word};
use index_tokens::{Placed, Token};
use index_tree::{FoldKind, FoldMember, FoldValue, Texts};
use raven_value::Text;
use reduce_grammar::{KeyForm, PlacedFold, PlacedFolds};
use token_reader::{Stop, Tokens, is_word};

const MAX_MEMBERS: usize = 64;

// A name after the key.
#[tactic(auto, unfolding(reduce_grammar::specs::ReduceReading::key_part))]
fn key_part(tokens: &mut Tokens<'_>) -> Result<FoldValue, Stop>
    ensures { Gives (spec.key_part tokens.old.count tokens.old.rest.now) result tokens.new.count tokens.new.rest.now }
{
    Ok(FoldValue::Key(tokens.name()?))
}

// What follows `Key` if the key is in `new { }`: it needs a name, unless the key has just one part.
fn key_part_of(tokens: &mut Tokens<'_>, parts: &Texts) -> Result<FoldValue, Stop>
    ensures { Gives (choose (spec.key_part_by parts.now) tokens.old.count tokens.old.rest.now) result tokens.new.count tokens.new.rest.now }
{
    if tokens.pass(&Token::Point) {
        return key_part(tokens);
    }
    match parts.as_slice() {
        [name] => Ok(FoldValue::Key(name.clone()?)),
        _ => Err(Stop::Unexpected),
    }
}

// What follows `Key`.
#[tactic(auto, unfolding(reduce_grammar::specs::ReduceReading::key_value))]
fn key_value(tokens: &mut Tokens<'_>, form: &KeyForm) -> Result<FoldValue, Stop>
    ensures { Gives (spec.key_value form.now tokens.old.count tokens.old.rest.now) result tokens.new.count tokens.new.rest.now }
{
    match form {
        KeyForm::Alone(name) => Ok(FoldValue::Key(name.clone()?)),
        KeyForm::New(parts) => key_part_of(tokens, parts),
    }
}

// What follows the word of a sum by which another one is divided: the name of an entry in it, and the field.
#[tactic(auto, unfolding(reduce_grammar::specs::ReduceReading::divisor))]
fn divisor(tokens: &mut Tokens<'_>) -> Result<(Text, Text), Stop>
    ensures { Gives (spec.divisor tokens.old.count tokens.old.rest.now) result tokens.new.count tokens.new.rest.now }
{
    tokens.mark(&Token::Open)?;
    let var = tokens.variable()?;
    tokens.mark(&Token::Arrow)?;
    tokens.variable()?;
    tokens.mark(&Token::Point)?;
    let field = tokens.name()?;
    tokens.mark(&Token::Close)?;
    Ok((var, field))
}

// What follows the sign of a quotient.
#[tactic(auto, unfolding(reduce_grammar::specs::ReduceReading::sum))]
fn sum(tokens: &mut Tokens<'_>, group: &Text) -> Result<(Text, Text), Stop>
    ensures { Gives (spec.sum group.now tokens.old.count tokens.old.rest.now) result tokens.new.count tokens.new.rest.now }
{
    tokens.word(group.as_str())?;
    tokens.mark(&Token::Point)?;
    tokens.word("Sum")?;
    divisor(tokens)
}

#[tactic(auto, unfolding(reduce_grammar::specs::ReduceReading::divided))]
fn divided(tokens: &mut Tokens<'_>, group: &Text, var: Text, field: Text) -> Result<FoldValue, Stop>
    ensures { Gives (spec.divided group.now var field tokens.old.count tokens.old.rest.now) result tokens.new.count tokens.new.rest.now }
{
    let (by_var, by) = sum(tokens, group)?;
    Ok(FoldValue::Quotient {
        var,
        field,
        by_var,
        by,
    })
}

// What follows the parenthesis of a sum.
fn over(tokens: &mut Tokens<'_>, group: &Text, var: Text, field: Text) -> Result<FoldValue, Stop>
    ensures { Gives (choose (spec.over_by group.now var field) tokens.old.count tokens.old.rest.now) result tokens.new.count tokens.new.rest.now }
{
    if tokens.pass(&Token::Slash) {
        return divided(tokens, group, var, field);
    }
    Ok(FoldValue::Fold {
        kind: FoldKind::Sum,
        var,
        field,
    })
}

// What follows the parenthesis of a fold: a sum may be divided by another one.
#[tactic(auto, unfolding(reduce_grammar::specs::ReduceReading::folded))]
fn folded(
    tokens: &mut Tokens<'_>,
    group: &Text,
    kind: FoldKind,
    var: Text,
    field: Text,
) -> Result<FoldValue, Stop>
    ensures { Gives (spec.folded group.now kind var field tokens.old.count tokens.old.rest.now) result tokens.new.count tokens.new.rest.now }
{
    match kind {
        FoldKind::Sum => over(tokens, group, var, field),
        FoldKind::Min => Ok(FoldValue::Fold { kind, var, field }),
        FoldKind::Max => Ok(FoldValue::Fold { kind, var, field }),
    }
}

// What follows the word of a fold.
#[tactic(auto, unfolding(reduce_grammar::specs::ReduceReading::fold))]
fn fold(tokens: &mut Tokens<'_>, group: &Text, kind: FoldKind) -> Result<FoldValue, Stop>
    ensures { Gives (spec.fold group.now kind tokens.old.count tokens.old.rest.now) result tokens.new.count tokens.new.rest.now }
{
    tokens.mark(&Token::Open)?;
    let var = tokens.variable()?;
    tokens.mark(&Token::Arrow)?;
    tokens.variable()?;
    tokens.mark(&Token::Point)?;
    let field = tokens.name()?;
    tokens.mark(&Token::Close)?;
    folded(tokens, group, kind, var, field)
}

// What follows a group and its point.
#[tactic(auto, unfolding(reduce_grammar::specs::ReduceReading::group_value))]
fn group_value(tokens: &mut Tokens<'_>, group: &Text, form: &KeyForm) -> Result<FoldValue, Stop>
    ensures { Gives (spec.group_value group.now form.now tokens.old.count tokens.old.rest.now) result tokens.new.count tokens.new.rest.now }
{
    let Some((first, rest)) = tokens.rest.split_first() else {
        return Err(Stop::Unexpected);
    };
    if is_word("Key", &first.token) {
        tokens.rest = rest;
        return key_value(tokens, form);
    }
    match fold_of(&first.token) {
        Some(kind) => {
            tokens.rest = rest;
            fold(tokens, group, kind)
        }
        None => Err(Stop::Unexpected),
    }
}

#[tactic(auto, unfolding(reduce_grammar::specs::ReduceReading::value))]
fn value(tokens: &mut Tokens<'_>, group: &Text, form: &KeyForm) -> Result<FoldValue, Stop>
    ensures { Gives (spec.value group.now form.now tokens.old.count tokens.old.rest.now) result tokens.new.count tokens.new.rest.now }
{
    tokens.word(group.as_str())?;
    tokens.mark(&Token::Point)?;
    group_value(tokens, group, form)
}

// What follows a name and `=`.
#[tactic(auto, unfolding(reduce_grammar::specs::ReduceReading::named))]
fn named(
    tokens: &mut Tokens<'_>,
    group: &Text,
    form: &KeyForm,
    at: usize,
    name: Text,
) -> Result<PlacedFold, Stop>
    ensures { Gives (spec.named group.now form.now at name tokens.old.count tokens.old.rest.now) result tokens.new.count tokens.new.rest.now }
{
    let value = value(tokens, group, form)?;
    Ok(PlacedFold {
        at,
        member: FoldMember { name, value },
    })
}

// What follows a group that begins a member.
#[tactic(auto, unfolding(reduce_grammar::specs::ReduceReading::bare))]
fn bare(tokens: &mut Tokens<'_>, at: usize) -> Result<PlacedFold, Stop>
    ensures { Gives (spec.bare at tokens.old.count tokens.old.rest.now) result tokens.new.count tokens.new.rest.now }
{
    tokens.mark(&Token::Point)?;
    tokens.word("Key")?;
    tokens.mark(&Token::Point)?;
    let name = tokens.name()?;
    let value = FoldValue::Key(name.clone()?);
    Ok(PlacedFold {
        at,
        member: FoldMember { name, value },
    })
}

// What follows the first token of a member, which is the name.
#[tactic(auto, unfolding(reduce_grammar::specs::ReduceReading::behind))]
fn behind(
    tokens: &mut Tokens<'_>,
    group: &Text,
    form: &KeyForm,
    first: &Placed,
    name: Text,
) -> Result<PlacedFold, Stop>
    ensures { Gives (spec.behind group.now form.now first.now name tokens.old.count tokens.old.rest.now) result tokens.new.count tokens.new.rest.now }
{
    if tokens.pass(&Token::Assign) {
        return named(tokens, group, form, first.at, name);
    }
    if is_word(group.as_str(), &first.token) && matches!(form, KeyForm::New(_)) {
        bare(tokens, first.at)
    } else {
        Err(Stop::Unexpected)
    }
}

#[tactic(auto, unfolding(reduce_grammar::specs::ReduceReading::member))]
fn member(tokens: &mut Tokens<'_>, group: &Text, form: &KeyForm) -> Result<PlacedFold, Stop>
    ensures { Gives (spec.member group.now form.now tokens.old.count tokens.old.rest.now) result tokens.new.count tokens.new.rest.now }
{
    let Some(first) = tokens.rest.first() else {
        return Err(Stop::Unexpected);
    };
    let name = tokens.name()?;
    behind(tokens, group, form, first, name)
}

// Whether a brace comes next, which is passed then.
#[tactic(auto, unfolding(reduce_grammar::specs::ReduceReading::brace))]
fn brace(tokens: &mut Tokens<'_>) -> bool
    ensures { spec.brace tokens.old.count tokens.old.rest.now ≡ Read result tokens.new.count tokens.new.rest.now }
{
    tokens.pass(&Token::CloseBrace)
}

// What follows a member: whether it is the last.
#[tactic(auto, unfolding(reduce_grammar::specs::ReduceReading::ends))]
fn ends(tokens: &mut Tokens<'_>) -> Result<bool, Stop>
    ensures { Gives (spec.ends tokens.old.count tokens.old.rest.now) result tokens.new.count tokens.new.rest.now }
{
    if brace(tokens) {
        return Ok(true);
    }
    tokens.mark(&Token::Comma)?;
    Ok(brace(tokens))
}

// Why there is no member, if there is no room for one.
#[tactic(auto, unfolding(reduce_grammar::specs::ReduceReading::no_room))]
fn no_room(tokens: &Tokens<'_>) -> Stop
    ensures { Stops (spec.no_room tokens.now.count tokens.now.rest.now) result tokens.now.rest.now }
{
    match tokens.rest.first() {
        Some(first) if is_any_word(&first.token) => Stop::TooLarge,
        _ => Stop::Unexpected,
    }
}

/// The members, from after the brace on.
pub fn members(tokens: &mut Tokens<'_>, group: &Text, form: &KeyForm) -> Result<PlacedFolds, Stop>
    ensures { Gives (spec.folds group.now form.now 64 [] tokens.old.count tokens.old.rest.now) result tokens.new.count tokens.new.rest.now }
{
    let mut found = PlacedFolds::new(tokens.alloc);
    for _turn in 0..MAX_MEMBERS {
        let member = member(tokens, group, form)?;
        found.push(member)?;
        if ends(tokens)? {
            return Ok(found);
        }
    }
    Err(no_room(tokens))
}
