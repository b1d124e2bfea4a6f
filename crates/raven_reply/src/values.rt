//! Lists and objects that are printed where they are kept.
ghost use Rattle.std.specs.Prelude.{◌≡◌, ◌++◌, ◌∷◌, OnOk, false};
ghost use Rattle.spec_data.specs.Data.{array, entries_of, items_of, object};
ghost use Rattle.spec_data.specs.Written.{entries_text, items_text, quoted, text_of};

use crate::piece::write_bytes;
use raven_base::NoMemory;
use raven_json::{Shown, ShownList, ShownMembers, write_text};
use raven_value::Text;
use std::alloc::Global;

fn write_items(alloc: Global, out: &mut Vec<u8>, items: &[Shown]) -> Result<(), NoMemory>
    ensures { OnOk result (out.new.items ≡ out.old.items ++ items_text false (items_of items.now)) }
{
    let mut later = false;
    for item in items {
        if later {
            write_bytes(out, b",")?;
        }
        item.write_to(alloc, out)?;
        later = true;
    }
    Ok(())
}

/// Adds the values as a list.
#[tactic(auto, using(crate::proofs::Printed::printed))]
pub fn write_list(alloc: Global, out: &mut Vec<u8>, values: &ShownList) -> Result<(), NoMemory>
    ensures { OnOk result (out.new.items ≡ out.old.items ++ text_of (array (items_of values.now))) }
{
    write_bytes(out, b"[")?;
    write_items(alloc, out, values.as_slice())?;
    write_bytes(out, b"]")
}

#[tactic(auto, using(crate::proofs::Printed::printed))]
fn write_entry(alloc: Global, out: &mut Vec<u8>, name: &str, shown: &Shown) -> Result<(), NoMemory>
    ensures { OnOk result (out.new.items ≡ out.old.items ++ (quoted name.now ++ 58 ∷ text_of shown.now)) }
{
    write_text(out, name)?;
    write_bytes(out, b":")?;
    shown.write_to(alloc, out)
}

fn write_entries(
    alloc: Global,
    out: &mut Vec<u8>,
    entries: &[(Text, Shown)],
) -> Result<(), NoMemory>
    ensures { OnOk result (out.new.items ≡ out.old.items ++ entries_text false (entries_of entries.now)) }
{
    let mut later = false;
    for entry in entries {
        if later {
            write_bytes(out, b",")?;
        }
        write_entry(alloc, out, entry.0.as_str(), &entry.1)?;
        later = true;
    }
    Ok(())
}

/// Adds the members as an object.
#[tactic(auto, using(crate::proofs::Printed::printed))]
pub fn write_map(alloc: Global, out: &mut Vec<u8>, members: &ShownMembers) -> Result<(), NoMemory>
    ensures { OnOk result (out.new.items ≡ out.old.items ++ text_of (object (entries_of members.now))) }
{
    write_bytes(out, b"{")?;
    write_entries(alloc, out, members.as_slice())?;
    write_bytes(out, b"}")
}
