//! Documents by their ids.
ghost use Rattle.std.specs.Prelude.{◌≡◌, IfOk, map, option_map};
ghost use Rattle.std.specs.List.{filter_map};
ghost use Rattle.spec_query.specs.Finding.{document_in as spec_document_in};
ghost use Rattle.rql_results.specs.Documents.{document_of, found_in};

use map_stage::Lookup;
use raven_base::NoMemory;
use raven_value::{Body, Document, Id, Row};
use std::alloc::Global;

/// A document with its row.
#[derive(Clone, Copy)]
pub struct Found<'r> {
    pub row: &'r Row,
    pub document: &'r Document,
}

fn document_in(row: &Row) -> Option<Found<'_>>
    ensures { option_map found_in result ≡ spec_document_in row.now }
{
    match &row.body {
        Body::Doc(document) => Some(Found { row, document }),
        Body::Gone => None,
    }
}

/// The document of an id, if there is one.
pub(crate) fn document_at<'r, T: Lookup>(rows: &'r T, id: &Id) -> Option<Found<'r>>
    ensures { option_map found_in result ≡ document_of (T.rows rows.now) id.now }
{
    match rows.find(id) {
        Some(row) => document_in(row),
        None => None,
    }
}

/// The documents of these ids, in the same order. An id without a document is passed over.
pub fn documents_of<'r, T: Lookup>(
    alloc: Global,
    rows: &'r T,
    ids: &[Id],
) -> Result<Vec<Found<'r>>, NoMemory>
    ensures { IfOk result (λ found. map found_in found.items ≡ filter_map (document_of (T.rows rows.now)) ids.now) }
{
    let mut found = Vec::new(alloc);
    for id in ids {
        if let Some(document) = document_at(rows, id) {
            found.push(document)?;
        }
    }
    Ok(found)
}
