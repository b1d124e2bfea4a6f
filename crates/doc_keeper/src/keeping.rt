//! How a row is stored.
ghost use Rattle.std.specs.Prelude.{◌≡◌, IfOk};
ghost use Rattle.spec_data.specs.Kept.{all_kept as spec_all_kept, body_text as spec_body_text, kept as spec_kept};
ghost use Rattle.raven_value.specs.RowView.{body_of};

use raven_base::{NoMemory, Sequence};
use raven_ports::{KeptRow, KeptRows};
use raven_value::{Body, Row, Rows, Text};
use std::alloc::Global;

// The text of the document, which is shared.
fn body_text(body: &Body) -> Result<Option<Text>, NoMemory>
    ensures { IfOk result (λ text. text ≡ spec_body_text (body_of body.now)) }
{
    match body {
        Body::Doc(document) => Ok(Some(document.text().clone()?)),
        Body::Gone => Ok(None),
    }
}

/// The row as it is stored: a document as the text that is written for it. The text, the id and the collection are shared.
pub fn kept(row: &Row) -> Result<KeptRow, NoMemory>
    ensures { IfOk result (λ kept. kept ≡ spec_kept row.now) }
{
    Ok(KeptRow {
        etag: row.etag,
        id: row.id.text().clone()?,
        collection: row.collection.clone()?,
        body: body_text(&row.body)?,
        changed: row.changed,
    })
}

/// The rows as they are stored, in the same order.
pub fn all_kept(alloc: Global, rows: &Rows) -> Result<KeptRows, NoMemory>
    ensures { IfOk result (λ all. all ≡ spec_all_kept rows.now) }
{
    let mut all = Sequence::new(alloc);
    for row in rows.as_slice() {
        all.push(kept(row.get())?)?;
    }
    Ok(all)
}
