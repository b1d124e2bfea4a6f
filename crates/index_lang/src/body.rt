//! The definition in the body of its row.
ghost use Rattle.std.specs.Prelude.{◌≡◌, IfOk, Some, option_map};
ghost use Rattle.std.specs.List.{list_any};
ghost use Rattle.spec_data.specs.Data.{entries_of};
ghost use Rattle.raven_value.specs.View.{data_of};
ghost use Rattle.spec_index.specs.Reduces.{has_quotient as spec_has_quotient, is_quotient as spec_is_quotient};
ghost use Rattle.spec_server.specs.Opening.{auto_read, body_form, is_empty_object as spec_is_empty_object, is_kind as spec_is_kind, reduce_read, text_in as spec_text_in, texts_read};
ghost use Rattle.index_lang.specs.Openings.{IsOfForm, IsSaid, unless_divided};
ghost use Rattle.index_definition.specs.DefinitionView.{definition_view};
ghost use Rattle.index_lang.specs.Bodies.{form_by_count, form_in, reduce_form_in, says_two as spec_says_two, texts_behind};

use crate::parsing::parse;
use crate::paths::paths_in;
use index_definition::{DefBody, LangRefusal, Shape};
use index_tree::{FoldMember, FoldValue};
use raven_base::NoMemory;
use raven_value::{Members, Name, Text, Value};
use std::alloc::Global;

// Whether the value is an object without members.
#[tactic(auto, using(crate::proofs::Forms::bodies))]
fn is_empty_object(value: Option<&Value>) -> bool
    ensures { result ≡ spec_is_empty_object (option_map (λ v. data_of v.now) value.entry) }
{
    match value {
        Some(Value::Map(members)) => members.as_slice().is_empty(),
        _ => false,
    }
}

// Whether the value is this text.
fn is_kind(value: Option<&Value>, kind: &str) -> bool
    ensures { result ≡ spec_is_kind kind.now (option_map (λ v. data_of v.now) value.entry) }
{
    match value {
        Some(Value::Text(text)) => text.as_str() == kind,
        _ => false,
    }
}

// The text, if the value is one.
fn text_in(value: Option<&Value>) -> Option<&Text>
    ensures { option_map (λ t. t.now) result ≡ spec_text_in (option_map (λ v. data_of v.now) value.entry) }
{
    match value {
        Some(Value::Text(text)) => Some(text),
        _ => None,
    }
}

// The automatic definition without groups that these four members make, if they make one.
fn auto_of(
    alloc: Global,
    metadata: Option<&Value>,
    collection: Option<&Value>,
    fields: Option<&Value>,
    kind: Option<&Value>,
) -> Result<Option<DefBody>, NoMemory>
    ensures { IfOk result (λ body. option_map definition_view body ≡ auto_read (option_map (λ v. data_of v.now) metadata.entry) (option_map (λ v. data_of v.now) collection.entry) (option_map (λ v. data_of v.now) fields.entry) (option_map (λ v. data_of v.now) kind.entry)) }
{
    if !is_empty_object(metadata) || !is_kind(kind, "auto") {
        return Ok(None);
    }
    let Some(collection) = text_in(collection) else {
        return Ok(None);
    };
    let Some(fields) = paths_in(alloc, fields)? else {
        return Ok(None);
    };
    Ok(Some(DefBody::Auto(Shape {
        collection: collection.clone()?,
        groups: None,
        fields,
    })))
}

// The automatic definition with groups that these five members make, if they make one.
fn grouped_of(
    alloc: Global,
    metadata: Option<&Value>,
    collection: Option<&Value>,
    groups: Option<&Value>,
    kind: Option<&Value>,
    sums: Option<&Value>,
) -> Result<Option<DefBody>, NoMemory>
    ensures { IfOk result (λ body. option_map definition_view body ≡ reduce_read (option_map (λ v. data_of v.now) metadata.entry) (option_map (λ v. data_of v.now) collection.entry) (option_map (λ v. data_of v.now) groups.entry) (option_map (λ v. data_of v.now) kind.entry) (option_map (λ v. data_of v.now) sums.entry)) }
{
    if !is_empty_object(metadata) || !is_kind(kind, "auto-reduce") {
        return Ok(None);
    }
    let Some(collection) = text_in(collection) else {
        return Ok(None);
    };
    let Some(groups) = paths_in(alloc, groups)? else {
        return Ok(None);
    };
    let Some(sums) = paths_in(alloc, sums)? else {
        return Ok(None);
    };
    Ok(Some(DefBody::Auto(Shape {
        collection: collection.clone()?,
        groups: Some(groups),
        fields: sums,
    })))
}

// The texts of a map and of a reduce, if there is one, that these four members hold, if they do.
fn texts_of<'a>(
    metadata: Option<&'a Value>,
    kind: Option<&'a Value>,
    map: Option<&'a Value>,
    reduce: Option<&'a Value>,
) -> Option<(&'a str, Option<&'a str>)>
    ensures { option_map texts_behind result ≡ texts_read (option_map (λ v. data_of v.now) metadata.entry) (option_map (λ v. data_of v.now) kind.entry) (option_map (λ v. data_of v.now) map.entry) (option_map (λ v. data_of v.now) reduce.entry) }
{
    if !is_empty_object(metadata) {
        return None;
    }
    let Some(kind) = text_in(kind) else {
        return None;
    };
    let map = text_in(map)?;
    if kind.as_str() != "static" {
        return None;
    }
    match reduce {
        Some(Value::Null) => Some((map.as_str(), None)),
        Some(Value::Text(reduce)) => Some((map.as_str(), Some(reduce.as_str()))),
        _ => None,
    }
}

fn is_quotient(value: &FoldValue) -> bool
    ensures { result ≡ spec_is_quotient value.now }
{
    match value {
        FoldValue::Quotient { .. } => true,
        _ => false,
    }
}

fn divides(members: &[FoldMember]) -> bool
    ensures { result ≡ list_any (λ m. spec_is_quotient m.value) members.now }
{
    for member in members {
        if is_quotient(&member.value) {
            return true;
        }
    }
    false
}

// Whether a field of the groups of a definition is a quotient.
#[tactic(auto, using(crate::proofs::Forms::quotients))]
fn has_quotient(body: &DefBody) -> bool
    ensures { result ≡ spec_has_quotient (definition_view body.now) }
{
    match body {
        DefBody::Static {
            reduce: Some(reduce),
            ..
        } => divides(reduce.members.as_slice()),
        DefBody::Static { reduce: None, .. } => false,
        DefBody::Auto(_) => false,
    }
}

// The definition, unless it has a quotient that may not be there.
fn undivided(may_divide: bool, body: DefBody) -> Option<DefBody>
    ensures { option_map definition_view result ≡ unless_divided may_divide (Some (definition_view body)) }
{
    if may_divide || !has_quotient(&body) {
        Some(body)
    } else {
        None
    }
}

// What the texts say, and nothing if they are refused, or have a quotient that may not be there. They say the same under each name.
#[tactic(auto, using(crate::proofs::Forms::sayings))]
fn said(
    alloc: Global,
    may_divide: bool,
    map: &str,
    reduce: Option<&str>,
) -> Result<Option<DefBody>, NoMemory>
    ensures { IfOk result (λ body. IsSaid may_divide (map.now, option_map (λ t. t.now) reduce.entry) (option_map definition_view body)) }
{
    let name = match Name::new(alloc, "map") {
        Ok(name) => name,
        Err(_) => return Err(NoMemory),
    };
    match parse(alloc, name, map, reduce) {
        Ok(definition) => Ok(undivided(may_divide, definition.body)),
        Err(LangRefusal::At { .. }) => Ok(None),
        Err(LangRefusal::NoMemory) => Err(NoMemory),
    }
}

// The definition in an object of four members beside its version.
#[tactic(auto, using(crate::proofs::Forms::forms))]
fn definition_in(
    alloc: Global,
    members: &Members,
    may_divide: bool,
) -> Result<Option<DefBody>, NoMemory>
    ensures { IfOk result (λ body. IsOfForm (form_in may_divide (entries_of members.now)) (option_map definition_view body)) }
{
    let metadata = members.get("@metadata");
    let kind = members.get("Kind");
    let collection = members.get("Collection");
    let fields = members.get("Fields");
    if let Some(body) = auto_of(alloc, metadata, collection, fields, kind)? {
        return Ok(Some(body));
    }
    let map = members.get("Map");
    let reduce = members.get("Reduce");
    match texts_of(metadata, kind, map, reduce) {
        Some((map, reduce)) => said(alloc, may_divide, map, reduce),
        None => Ok(None),
    }
}

// The definition in an object of five members beside its version.
#[tactic(auto, using(crate::proofs::Forms::forms))]
fn grouped_in(alloc: Global, members: &Members) -> Result<Option<DefBody>, NoMemory>
    ensures { IfOk result (λ body. IsOfForm (reduce_form_in (entries_of members.now)) (option_map definition_view body)) }
{
    let metadata = members.get("@metadata");
    let collection = members.get("Collection");
    let groups = members.get("Groups");
    let kind = members.get("Kind");
    let sums = members.get("Sums");
    grouped_of(alloc, metadata, collection, groups, kind, sums)
}

// The definition in an object that has so many members beside its version.
#[tactic(auto, using(crate::proofs::Forms::counts))]
fn counted_in(
    alloc: Global,
    members: &Members,
    count: usize,
    may_divide: bool,
) -> Result<Option<DefBody>, NoMemory>
    ensures { IfOk result (λ body. IsOfForm (form_by_count count may_divide (entries_of members.now)) (option_map definition_view body)) }
{
    match count {
        4 => definition_in(alloc, members, may_divide),
        5 => grouped_in(alloc, members),
        _ => Ok(None),
    }
}

// Whether the value is the number 2.
fn says_two(value: Option<&Value>) -> bool
    ensures { result ≡ spec_says_two (option_map (λ v. data_of v.now) value.entry) }
{
    match value {
        Some(Value::Num(number)) => *number == 2,
        _ => false,
    }
}

/// The definition that the body of a row says, in either version: an automatic one by its paths, with groups or without, or a map by its
/// text. Nothing if it says none, or if it has something else, or if one of the first version has a quotient.
pub fn of_row_body(alloc: Global, body: &Value) -> Result<Option<DefBody>, NoMemory>
    ensures { IfOk result (λ found. IsOfForm (body_form (data_of body.now)) (option_map definition_view found)) }
{
    let Value::Map(members) = body else {
        return Ok(None);
    };
    let count = members.as_slice().len();
    if says_two(members.get("Version")) {
        counted_in(alloc, members, count - 1, true)
    } else {
        counted_in(alloc, members, count, false)
    }
}
