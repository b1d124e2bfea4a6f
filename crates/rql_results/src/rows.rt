//! Rows of a reduce: what is shown of them, and which documents they include.
ghost use Rattle.std.specs.Prelude.{◌≡◌, ◌++◌, [], IfOk, map, option_map};
ghost use Rattle.spec_data.specs.Scalars.{number as spec_number};
ghost use Rattle.spec_query.specs.Results.{in_row as spec_in_row, members_of as spec_members_of, row_members, scalar_data, text_in_row as spec_text_in_row};
ghost use Rattle.raven_value.specs.ScalarView.{scalar_view};
ghost use Rattle.raven_value.specs.View.{data_of};
ghost use Rattle.rql_tree.specs.View.{field_of};
ghost use Rattle.rql_results.specs.Documents.{found_in};
ghost use Rattle.rql_results.specs.Led.{led_by};
ghost use Rattle.rql_results.specs.Rows.{included_by as spec_included_by, row_result as spec_row_result};

use crate::documents::Found;
use crate::include::led_to;
use crate::show::Show;
use crate::under_ids::shown_under_ids;
use index_definition::joined_name;
use map_stage::{Entry, Lookup};
use raven_base::NoMemory;
use raven_json::{Shown, ShownList, ShownMembers};
use raven_value::{Members, Path, Scalar, Text, Value};
use rql_plan::{Selected, field_name};
use rql_tree::Field;
use std::alloc::Global;

// A number outside 64 bits is shown as a text of its digits.
fn number_value(alloc: Global, number: i128) -> Result<Value, NoMemory>
    ensures { IfOk result (λ value. data_of value ≡ scalar_data (spec_number number)) }
{
    match i64::try_from(number) {
        Ok(number) => Ok(Value::Num(number)),
        Err(_) => Ok(Value::Text(Text::of_string(format!(in alloc; "{number}")?)?)),
    }
}

fn scalar_value(alloc: Global, scalar: &Scalar) -> Result<Value, NoMemory>
    ensures { IfOk result (λ value. data_of value ≡ scalar_data (scalar_view scalar.now)) }
{
    match scalar {
        Scalar::Null => Ok(Value::Null),
        Scalar::Flag(flag) => Ok(Value::Flag(*flag)),
        Scalar::Num(number) => number_value(alloc, *number),
        Scalar::Text(text) => Ok(Value::Text(text.clone()?)),
    }
}

/// The field of that name, or null.
fn in_row(alloc: Global, row: &Entry, field: &Field) -> Result<Value, NoMemory>
    ensures { IfOk result (λ value. data_of value ≡ spec_in_row row.now (field_of field.now)) }
{
    let name = field_name(alloc, field)?;
    match row.get(name.as_str()) {
        Some(scalar) => scalar_value(alloc, scalar),
        None => Ok(Value::Null),
    }
}

fn all_members(alloc: Global, row: &Entry) -> Result<Members, NoMemory>
    ensures { IfOk result (λ members. members ≡ row_members row.now []) }
{
    let mut members = Members::new(alloc);
    for field in row.as_slice() {
        let value = scalar_value(alloc, &field.1)?;
        members.put(field.0.clone()?, value)?;
    }
    Ok(members)
}

fn members_of(alloc: Global, row: &Entry, columns: &[Selected]) -> Result<Members, NoMemory>
    ensures { IfOk result (λ members. members ≡ spec_members_of (spec_in_row row.now) columns.now []) }
{
    let mut members = Members::new(alloc);
    for column in columns {
        let value = in_row(alloc, row, &column.field)?;
        members.put(column.name.clone()?, value)?;
    }
    Ok(members)
}

/// An object of all fields of the row, or of the columns.
fn result_of(alloc: Global, row: &Entry, columns: &[Selected]) -> Result<Shown, NoMemory>
    ensures { IfOk result (λ shown. shown ≡ spec_row_result columns.now row.now) }
{
    if columns.is_empty() {
        return Ok(Shown::of_value(Value::Map(all_members(alloc, row)?)));
    }
    Ok(Shown::of_value(Value::Map(members_of(alloc, row, columns)?)))
}

/// What is shown of each of these rows: an object of all its fields, or of the columns.
pub fn results_of_rows(
    alloc: Global,
    rows: &[&Entry],
    columns: &[Selected],
) -> Result<ShownList, NoMemory>
    ensures { IfOk result (λ results. results ≡ map (spec_row_result columns.now) (map (λ r. r.now) rows.now)) }
{
    let mut results = ShownList::new(alloc);
    for row in rows {
        results.push(result_of(alloc, row, columns)?)?;
    }
    Ok(results)
}

/// The text of the field of a joined path, if it is one.
fn text_in_row<'e>(alloc: Global, row: &'e Entry, path: &Path) -> Result<Option<&'e Text>, NoMemory>
    ensures { IfOk result (λ text. option_map (λ t. t.now) text ≡ spec_text_in_row row.now path.now) }
{
    let name = joined_name(alloc, path)?;
    match row.get(name.as_str()) {
        Some(Scalar::Text(text)) => Ok(Some(text)),
        _ => Ok(None),
    }
}

/// With the documents to which a row leads by these paths.
fn with_row<'r, T: Lookup>(
    alloc: Global,
    rows: &'r T,
    row: &Entry,
    paths: &[Path],
    mut led: Vec<Found<'r>>,
) -> Result<Vec<Found<'r>>, NoMemory>
    ensures { IfOk result (λ all. map found_in all.items ≡ map found_in led.entry.items ++ led_by (T.rows rows.now) (spec_text_in_row row.now) paths.now) }
{
    for path in paths {
        if let Some(found) = led_to(rows, text_in_row(alloc, row, path)?)? {
            led.push(found)?;
        }
    }
    Ok(led)
}

/// The documents to which these rows lead: those whose ids are the texts of the fields at the paths, each under its id.
pub fn included_by_rows<T: Lookup, W: Show>(
    alloc: Global,
    rows: &T,
    show: &W,
    found: &[&Entry],
    paths: &[Path],
) -> Result<ShownMembers, NoMemory>
    ensures { IfOk result (λ members. members ≡ spec_included_by (W.shown show.now) (T.rows rows.now) paths.now (map (λ r. r.now) found.now) []) }
{
    let mut led = Vec::new(alloc);
    for row in found {
        led = with_row(alloc, rows, row, paths, led)?;
    }
    shown_under_ids(alloc, show, led)
}
