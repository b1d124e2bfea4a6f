//! Documents that a query includes.
ghost use Rattle.std.specs.Prelude.{◌≡◌, ◌++◌, [], IfOk, map, option_map};
ghost use Rattle.spec_query.specs.Results.{text_in_document};
ghost use Rattle.raven_value.specs.View.{data_of};
ghost use Rattle.rql_results.specs.Documents.{found_in, included as spec_included};
ghost use Rattle.rql_results.specs.Led.{led_by, led_to as spec_led_to};

use crate::documents::{Found, document_at};
use crate::show::Show;
use crate::under_ids::shown_under_ids;
use map_stage::Lookup;
use raven_base::NoMemory;
use raven_json::{ShownMembers, value_of};
use raven_value::{Document, Id, IdRefusal, Path, Text, Value};
use std::alloc::Global;

/// The text at a path, if there is one.
fn text_at<'v>(document: &'v Value, path: &Path) -> Option<&'v Text>
    ensures { option_map (λ text. text.now) result ≡ text_in_document (data_of document.now) path.now }
{
    match document.at(path) {
        Some(Value::Text(text)) => Some(text),
        _ => None,
    }
}

/// The document whose id the text is, if there is one.
pub(crate) fn led_to<'r, T: Lookup>(
    rows: &'r T,
    text: Option<&Text>,
) -> Result<Option<Found<'r>>, NoMemory>
    ensures { IfOk result (λ found. option_map found_in found ≡ spec_led_to (T.rows rows.now) (option_map (λ text. text.now) text.entry)) }
{
    let Some(text) = text else {
        return Ok(None);
    };
    match Id::of(text) {
        Ok(id) => Ok(document_at(rows, &id)),
        Err(IdRefusal::NoMemory) => Err(NoMemory),
        Err(_) => Ok(None),
    }
}

/// With the documents to which a document leads by these paths.
fn with_led<'r, T: Lookup>(
    rows: &'r T,
    document: &Value,
    paths: &[Path],
    mut led: Vec<Found<'r>>,
) -> Result<Vec<Found<'r>>, NoMemory>
    ensures { IfOk result (λ all. map found_in all.items ≡ map found_in led.entry.items ++ led_by (T.rows rows.now) (text_in_document (data_of document.now)) paths.now) }
{
    for path in paths {
        if let Some(found) = led_to(rows, text_at(document, path))? {
            led.push(found)?;
        }
    }
    Ok(led)
}

/// With the documents to which a document leads by these paths. If there are any, its text is read.
fn with_those_of<'r, T: Lookup>(
    alloc: Global,
    rows: &'r T,
    document: &Document,
    paths: &[Path],
    led: Vec<Found<'r>>,
) -> Result<Vec<Found<'r>>, NoMemory>
    ensures { IfOk result (λ all. map found_in all.items ≡ map found_in led.entry.items ++ led_by (T.rows rows.now) (text_in_document document.now) paths.now) }
{
    if paths.is_empty() {
        return Ok(led);
    }
    let value = value_of(alloc, document)?;
    with_led(rows, &value, paths, led)
}

/// The documents to which these documents lead: those whose ids are the texts at the paths, each under its id. What is no id, or
/// the id of no document, leads to none.
///
/// It takes time that grows with their number and its logarithm.
pub fn included<T: Lookup, W: Show>(
    alloc: Global,
    rows: &T,
    show: &W,
    documents: &[Found],
    paths: &[Path],
) -> Result<ShownMembers, NoMemory>
    ensures { IfOk result (λ members. members ≡ spec_included (W.shown show.now) (T.rows rows.now) paths.now (map found_in documents.now) []) }
{
    let mut led = Vec::new(alloc);
    for found in documents {
        led = with_those_of(alloc, rows, found.document, paths, led)?;
    }
    shown_under_ids(alloc, show, led)
}
