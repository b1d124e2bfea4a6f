//! Values as the keys of an order compare them.
ghost use Rattle.std.specs.Prelude.{◌≡◌, IfOk};
ghost use Rattle.spec_query.specs.Sorting.{number_form, text_form, value_named};
ghost use Rattle.raven_value.specs.ScalarView.{scalar_view};
ghost use Rattle.rql_order.specs.Values.{by_number as spec_by_number, by_text as spec_by_text, sort_value as spec_sort_value};

use map_stage::Entry;
use raven_base::NoMemory;
use raven_value::{Folded, Scalar, Text};
use rql_plan::SortKey;
use std::alloc::Global;
use std::cmp::Reverse;

/// What a key compares of a value: its number or its text form, from the least or from the greatest on. Values without it come
/// first, or last if the greatest comes first.
#[derive(PartialEq, Eq, PartialOrd, Ord)]
pub enum SortValue {
    Number(Option<i128>),
    Text(Option<Folded>),
    NumberDown(Reverse<Option<i128>>),
    TextDown(Reverse<Option<Folded>>),
}

// Opaque drop: see raven_base.
impl Drop for SortValue {
    fn drop(self) {
        match self {
            SortValue::Number(_value) => {}
            SortValue::Text(_value) => {}
            SortValue::NumberDown(_value) => {}
            SortValue::TextDown(_value) => {}
        }
    }
}

fn number_of(value: &Scalar) -> Option<i128>
    ensures { result ≡ number_form (scalar_view value.now) }
{
    match value {
        Scalar::Num(number) => Some(*number),
        _ => None,
    }
}

fn text_of(alloc: Global, value: &Scalar) -> Result<Option<Folded>, NoMemory>
    ensures { IfOk result (λ text. text ≡ text_form (scalar_view value.now)) }
{
    let text = match value {
        Scalar::Null => return Ok(None),
        Scalar::Flag(true) => Text::of(alloc, "true")?,
        Scalar::Flag(false) => Text::of(alloc, "false")?,
        Scalar::Num(number) => Text::of_string(format!(in alloc; "{number}")?)?,
        Scalar::Text(text) => text.clone()?,
    };
    Ok(Some(Folded(text)))
}

fn by_number(number: Option<i128>, desc: bool) -> SortValue
    ensures { result ≡ spec_by_number number desc }
{
    if desc {
        SortValue::NumberDown(Reverse(number))
    } else {
        SortValue::Number(number)
    }
}

fn by_text(text: Option<Folded>, desc: bool) -> SortValue
    ensures { result ≡ spec_by_text text desc }
{
    if desc {
        SortValue::TextDown(Reverse(text))
    } else {
        SortValue::Text(text)
    }
}

fn sort_value(alloc: Global, key: &SortKey, value: &Scalar) -> Result<SortValue, NoMemory>
    ensures { IfOk result (λ sorts. sorts ≡ spec_sort_value key.now (scalar_view value.now)) }
{
    if key.long {
        Ok(by_number(number_of(value), key.desc))
    } else {
        Ok(by_text(text_of(alloc, value)?, key.desc))
    }
}

/// What a key compares of an entry. A field that the entry lacks is as null.
pub fn value_in(alloc: Global, key: &SortKey, entry: &Entry) -> Result<SortValue, NoMemory>
    ensures { IfOk result (λ sorts. sorts ≡ spec_sort_value key.now (value_named key.now.field entry.now)) }
{
    match entry.get(key.field.as_str()) {
        Some(value) => sort_value(alloc, key, value),
        None => sort_value(alloc, key, &Scalar::Null),
    }
}
