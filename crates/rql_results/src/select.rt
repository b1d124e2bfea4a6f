//! The results of a query.
ghost use Rattle.std.specs.Prelude.{◌≡◌, [], IfOk, map};
ghost use Rattle.spec_query.specs.Results.{in_document as spec_in_document, members_of as spec_members_of, selected};
ghost use Rattle.raven_value.specs.View.{data_of};
ghost use Rattle.rql_tree.specs.View.{field_of};
ghost use Rattle.rql_results.specs.Documents.{found_in, result_of as spec_result_of};

use crate::documents::Found;
use crate::show::Show;
use raven_base::NoMemory;
use raven_json::{Shown, ShownList, value_of};
use raven_value::{Document, Members, Value};
use rql_plan::Selected;
use rql_tree::Field;
use std::alloc::Global;

/// Whatever is at the path of a field, or null.
fn in_document(document: &Value, field: &Field) -> Result<Value, NoMemory>
    ensures { IfOk result (λ value. data_of value ≡ spec_in_document (data_of document.now) (field_of field.now)) }
{
    let Field::Path(path) = field else {
        return Ok(Value::Null);
    };
    match document.at(path) {
        Some(value) => Ok(value.clone()?),
        None => Ok(Value::Null),
    }
}

fn members_of(alloc: Global, document: &Value, columns: &[Selected]) -> Result<Members, NoMemory>
    ensures { IfOk result (λ members. members ≡ spec_members_of (spec_in_document (data_of document.now)) columns.now []) }
{
    let mut members = Members::new(alloc);
    for column in columns {
        members.put(column.name.clone()?, in_document(document, &column.field)?)?;
    }
    Ok(members)
}

// The columns of a document, whose text is read.
fn members_in(alloc: Global, document: &Document, columns: &[Selected]) -> Result<Members, NoMemory>
    ensures { IfOk result (λ members. members ≡ spec_members_of (spec_in_document document.now) columns.now []) }
{
    let value = value_of(alloc, document)?;
    members_of(alloc, &value, columns)
}

/// The whole document, or an object of the columns.
fn result_of<W: Show>(
    alloc: Global,
    show: &W,
    found: &Found,
    columns: &[Selected],
) -> Result<Shown, NoMemory>
    ensures { IfOk result (λ shown. shown ≡ spec_result_of (W.shown show.now) columns.now (found_in found.now)) }
{
    let document: &Document = found.document;
    if columns.is_empty() {
        return show.show(alloc, found.row, document);
    }
    let members = members_in(alloc, document, columns)?;
    Ok(Shown::of_value(Value::Map(members)))
}

/// What is shown of each of these documents: the whole document, or an object of the columns.
pub fn results_of<W: Show>(
    alloc: Global,
    show: &W,
    documents: &[Found],
    columns: &[Selected],
) -> Result<ShownList, NoMemory>
    ensures { IfOk result (λ results. results ≡ map (spec_result_of (W.shown show.now) columns.now) (map found_in documents.now)) }
{
    let mut results = ShownList::new(alloc);
    for found in documents {
        results.push(result_of(alloc, show, found, columns)?)?;
    }
    Ok(results)
}
