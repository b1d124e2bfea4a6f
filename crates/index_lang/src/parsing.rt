//! The reading of definitions.
ghost use Rattle.std.specs.Prelude.{◌≡◌, IfOk, map, option_map, Option, Some, None, Result, Ok, Err};
ghost use Rattle.index_definition.specs.declared.refusal.LangRefusal.TheVariants.{At};
ghost use Rattle.index_lang.specs.Parse as spec;
ghost use Rattle.index_lang.specs.Parse.{UnlessNoMemory, first_cause, unless, where_given};

use crate::groups::unbound_in_reduce;
use crate::members::{duplicate, fields_agree, irreducible};
use crate::names::unbound_name;
use crate::reading::{ReadMap, ReadReduce, Trees};
use index_definition::{DefBody, Definition, LangKind, LangRefusal, Part};
use index_parser::read_map;
use index_tokens::{Placed, tokenise};
use index_tree::{FoldMembers, ReduceQuery};
use raven_base::NoMemory;
use raven_value::{Name, Text};
use reduce_grammar::SpelledReduce;
use reduce_parser::read_reduce;
use std::alloc::Global;
use token_reader::Refusal;

/// How many bytes a text of a definition has at most.
pub const MAX_TEXT: usize = 65_536;

fn refusal(part: Part, at: usize, kind: LangKind) -> LangRefusal
    ensures { result ≡ At part at kind }
{
    LangRefusal::At { part, at, kind }
}

fn fits(part: Part, text: &str) -> Result<(), LangRefusal>
    ensures { result ≡ unless (spec.too_long part text.now) tt }
{
    if text.len() > MAX_TEXT {
        return Err(refusal(part, MAX_TEXT, LangKind::TooLarge));
    }
    Ok(())
}

fn none_at(part: Part, kind: LangKind, place: Option<usize>) -> Result<(), LangRefusal>
    ensures { result ≡ unless (spec.refused_at part kind place) tt }
{
    match place {
        Some(at) => Err(refusal(part, at, kind)),
        None => Ok(()),
    }
}

// The map that tokens spell, and the first name in it that is not bound.
fn map_of(alloc: Global, tokens: &[Placed]) -> Result<ReadMap, LangRefusal>
    ensures { UnlessNoMemory result (spec.IsMapOf tokens.now) }
{
    match read_map(alloc, tokens) {
        Ok(map) => {
            let unbound = unbound_name(&map, tokens);
            Ok(ReadMap { map, unbound })
        }
        Err(Refusal::Unexpected { at }) => Err(refusal(Part::Map, at, LangKind::Unexpected)),
        Err(Refusal::TooLarge { at }) => Err(refusal(Part::Map, at, LangKind::TooLarge)),
        Err(Refusal::NoMemory) => Err(LangRefusal::NoMemory),
    }
}

fn read_map_text(alloc: Global, text: &str) -> Result<ReadMap, LangRefusal>
    ensures { UnlessNoMemory result (spec.IsMapRead text.now) }
{
    let tokens = tokenise(alloc, text)?;
    map_of(alloc, &tokens)
}

// The reduce that tokens spell, and the first name in it that is not bound.
fn reduce_read(alloc: Global, tokens: &[Placed]) -> Result<ReadReduce, LangRefusal>
    ensures { UnlessNoMemory result (spec.IsReduceOf tokens.now) }
{
    match read_reduce(alloc, tokens) {
        Ok(reduce) => {
            let unbound = unbound_in_reduce(&reduce, tokens);
            Ok(ReadReduce { reduce, unbound })
        }
        Err(Refusal::Unexpected { at }) => Err(refusal(Part::Reduce, at, LangKind::Unexpected)),
        Err(Refusal::TooLarge { at }) => Err(refusal(Part::Reduce, at, LangKind::TooLarge)),
        Err(Refusal::NoMemory) => Err(LangRefusal::NoMemory),
    }
}

fn read_reduce_text(alloc: Global, text: &str) -> Result<ReadReduce, LangRefusal>
    ensures { UnlessNoMemory result (spec.IsReduceRead text.now) }
{
    let tokens = tokenise(alloc, text)?;
    reduce_read(alloc, &tokens)
}

fn read_both(alloc: Global, map: &str, reduce: Option<&str>) -> Result<Trees, LangRefusal>
    ensures { UnlessNoMemory result (spec.AreRead map.now (option_map (λ t. t.now) reduce.entry)) }
{
    let map = read_map_text(alloc, map)?;
    let reduce = match reduce {
        Some(text) => Some(read_reduce_text(alloc, text)?),
        None => None,
    };
    Ok(Trees { map, reduce })
}

fn check_reduce(map: &ReadMap, reduce: &ReadReduce) -> Result<(), LangRefusal>
    ensures { result ≡ unless (first_cause (spec.reduce_causes map.now reduce.now)) tt }
{
    if !fields_agree(map.map.members.as_slice(), reduce.reduce.members.as_slice()) {
        return Err(refusal(Part::Reduce, 0, LangKind::FieldsDiffer));
    }
    none_at(
        Part::Reduce,
        LangKind::NotReducible,
        irreducible(&reduce.reduce),
    )
}

fn check(trees: &Trees) -> Result<(), LangRefusal>
    ensures { result ≡ unless (first_cause (spec.causes trees.now)) tt }
{
    let map = &trees.map;
    none_at(Part::Map, LangKind::UnknownName, map.unbound)?;
    if let Some(reduce) = &trees.reduce {
        none_at(Part::Reduce, LangKind::UnknownName, reduce.unbound)?;
    }
    none_at(
        Part::Map,
        LangKind::DuplicateField,
        duplicate(map.map.members.as_slice()),
    )?;
    if let Some(reduce) = &trees.reduce {
        none_at(
            Part::Reduce,
            LangKind::DuplicateField,
            duplicate(reduce.reduce.members.as_slice()),
        )?;
        check_reduce(map, reduce)?;
    }
    Ok(())
}

fn reduce_of(alloc: Global, spelled: SpelledReduce) -> Result<ReduceQuery, NoMemory>
    ensures { IfOk result (λ query. query ≡ spec.reduce_of spelled) }
{
    let mut members = FoldMembers::new(alloc);
    for placed in spelled.members.into_vec() {
        members.push(placed.member)?;
    }
    Ok(ReduceQuery {
        var: spelled.var,
        group: spelled.group,
        key: spelled.key,
        members,
    })
}

fn definition(
    alloc: Global,
    name: Name,
    map: &str,
    reduce: Option<&str>,
    trees: Trees,
) -> Result<Definition, NoMemory>
    ensures { IfOk result (λ d. d ≡ spec.definition name map.now (option_map (λ t. t.now) reduce.entry) trees) }
{
    let Trees {
        map: read_map,
        reduce: read_reduce,
    } = trees;
    let query = match read_reduce {
        Some(read) => Some(reduce_of(alloc, read.reduce)?),
        None => None,
    };
    let reduce_text = match reduce {
        Some(text) => Some(Text::of(alloc, text)?),
        None => None,
    };
    Ok(Definition {
        name,
        body: DefBody::Static {
            map: read_map.map.into_query(alloc)?,
            reduce: query,
            map_text: Text::of(alloc, map)?,
            reduce_text,
        },
    })
}

fn fits_both(map: &str, reduce: Option<&str>) -> Result<(), LangRefusal>
    ensures { result ≡ unless (first_cause (spec.lengths map.now (option_map (λ t. t.now) reduce.entry))) tt }
{
    fits(Part::Map, map)?;
    if let Some(text) = reduce {
        fits(Part::Reduce, text)?;
    }
    Ok(())
}

fn judge(
    alloc: Global,
    name: Name,
    map: &str,
    reduce: Option<&str>,
    trees: Trees,
) -> Result<Definition, LangRefusal>
    ensures { UnlessNoMemory result (λ answer. answer ≡ spec.judged name map.now (option_map (λ t. t.now) reduce.entry) trees) }
{
    match check(&trees) {
        Ok(()) => Ok(definition(alloc, name, map, reduce, trees)?),
        Err(refusal) => Err(refusal),
    }
}

/// The definition that the texts of a map and of a reduce, if there is one, say; or the first cause for which they are none, in the order of
/// [`LangKind`]'s table: both texts are read first, the map before the reduce, and then looked at for each cause in turn.
pub fn parse(
    alloc: Global,
    name: Name,
    map: &str,
    reduce: Option<&str>,
) -> Result<Definition, LangRefusal>
    ensures { UnlessNoMemory result (spec.IsParsed name map.now (option_map (λ t. t.now) reduce.entry)) }
{
    fits_both(map, reduce)?;
    let trees = read_both(alloc, map, reduce)?;
    judge(alloc, name, map, reduce, trees)
}
