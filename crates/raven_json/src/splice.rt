//! Documents with other metadata.
ghost use Rattle.std.specs.Prelude.{◌≡◌, ◌++◌, IfOk, OnOk, codes};
ghost use Rattle.raven_json.specs.Shown.{shown_with};
ghost use Rattle.raven_value.specs.View.{data_of};
ghost use Rattle.spec_data.specs.Written.{text_of};

use crate::document::value_of;
use crate::encode::write_to;
use raven_base::NoMemory;
use raven_value::{Document, Value};
use std::alloc::Global;

fn write_bytes(out: &mut Vec<u8>, bytes: &[u8]) -> Result<(), NoMemory>
    ensures { OnOk result (out.new.items ≡ out.old.items ++ bytes.now) }
{
    out.extend_from_slice(bytes)?;
    Ok(())
}

/// The value with this metadata, if it is an object.
#[tactic(auto, using(crate::proofs::Splices::pairs))]
pub(crate) fn with_metadata(
    alloc: Global,
    value: Value,
    metadata: &Value,
) -> Result<Value, NoMemory>
    ensures { IfOk result (λ shown. data_of shown ≡ shown_with (data_of value) (data_of metadata.now)) }
{
    match value {
        Value::Map(mut members) => {
            members.put_at(alloc, "@metadata", metadata.clone()?)?;
            Ok(Value::Map(members))
        }
        other => Ok(other),
    }
}

// Adds the document by its value.
fn write_by_value(
    alloc: Global,
    out: &mut Vec<u8>,
    document: &Document,
    metadata: &Value,
) -> Result<(), NoMemory>
    ensures { OnOk result (out.new.items ≡ out.old.items ++ text_of (shown_with document.now (data_of metadata.now))) }
{
    let shown = with_metadata(alloc, value_of(alloc, document)?, metadata)?;
    write_to(alloc, out, &shown)
}

/// Adds the text of a document, with this metadata if it is an object. The text is copied as it stands, if the metadata is its first
/// member and an object; else it is read.
#[tactic(auto, using(crate::proofs::Splices::spliced))]
pub fn write_shown(
    alloc: Global,
    out: &mut Vec<u8>,
    document: &Document,
    metadata: &Value,
) -> Result<(), NoMemory>
    ensures { OnOk result (out.new.items ≡ out.old.items ++ text_of (shown_with document.now (data_of metadata.now))) }
{
    let Some((_, behind)) = document.parts() else {
        return write_by_value(alloc, out, document, metadata);
    };
    write_bytes(out, b"{\"@metadata\":")?;
    write_to(alloc, out, metadata)?;
    write_bytes(out, behind)
}
