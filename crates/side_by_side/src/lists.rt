//! Lists of live indexes.
ghost use Rattle.std.specs.Prelude.{◌≡◌, IfOk, map, option_copied};
ghost use Rattle.spec_data.specs.Faults.{replacement_of};
ghost use Rattle.spec_data.specs.Folding.{folded};
ghost use Rattle.spec_index.specs.World.{numbered as spec_numbered, renamed as spec_renamed, serving as spec_serving, with_version as spec_with_version, without as spec_without};
ghost use Rattle.side_by_side.specs.Naming.{AreBeside, AreNamedAs, IsNamedAs};

use crate::note::Note;
use crate::slot::{Slot, is_named};
use index_version::IndexVersion;
use raven_base::NoMemory;
use raven_value::Name;
use std::alloc::Global;
use std::sync::Arc;

/// The index that serves a name, which is compared without regard to case.
pub fn serving_in<'a>(slots: &'a [Slot], name: &str) -> Option<&'a Slot>
    ensures { option_copied result ≡ spec_serving slots.now name.now }
{
    for slot in slots {
        if is_named(slot, name) {
            return Some(slot);
        }
    }
    None
}

/// The index of a number.
pub fn numbered_in(slots: &[Slot], number: u64) -> Option<&Slot>
    ensures { option_copied result ≡ spec_numbered slots.now number }
{
    for slot in slots {
        if slot.number == number {
            return Some(slot);
        }
    }
    None
}

/// Copies of notes.
pub fn copied_notes(alloc: Global, notes: &[Note]) -> Result<Vec<Note>, NoMemory>
    ensures { IfOk result (λ new. new.items ≡ notes.now) }
{
    let mut new = Vec::with_capacity(alloc, notes.len())?;
    for note in notes {
        new.push(note.clone()?)?;
    }
    Ok(new)
}

/// Copies of indexes, which share what they have recorded.
pub fn copies(alloc: Global, slots: &[Slot]) -> Result<Vec<Slot>, NoMemory>
    ensures { IfOk result (λ new. new.items ≡ slots.now) }
{
    let mut new = Vec::with_capacity(alloc, slots.len())?;
    for slot in slots {
        new.push(slot.clone()?)?;
    }
    Ok(new)
}

/// Copies of the indexes that do not have this number.
pub fn without(alloc: Global, slots: &[Slot], number: u64) -> Result<Vec<Slot>, NoMemory>
    ensures { IfOk result (λ new. new.items ≡ spec_without number slots.now) }
{
    let mut new = Vec::new(alloc);
    for slot in slots {
        if slot.number != number {
            new.push(slot.clone()?)?;
        }
    }
    Ok(new)
}

// The slot with another version, if it has this number.
fn with_version(slot: &Slot, number: u64, version: &Arc<IndexVersion>) -> Result<Slot, NoMemory>
    requires { slot.now.number ≡ number → IsNamedAs slot.now.name version.now.value.name }
    ensures { IfOk result (λ new. new ≡ spec_with_version number version.now.value.version slot.now) }
{
    if slot.number != number {
        return Ok(slot.clone()?);
    }
    Ok(Slot {
        number,
        name: slot.name.clone()?,
        version: version.clone()?,
        row: slot.row,
    })
}

/// Copies of indexes, of which the one of this number has another version.
pub fn all_with_version(
    alloc: Global,
    slots: &[Slot],
    number: u64,
    version: &Arc<IndexVersion>,
) -> Result<Vec<Slot>, NoMemory>
    requires { AreNamedAs number version.now.value.name slots.now }
    ensures { IfOk result (λ new. new.items ≡ map (spec_with_version number version.now.value.version) slots.now) }
{
    let mut new = Vec::with_capacity(alloc, slots.len())?;
    let mut left = slots;
    while let [slot, more @ ..] = left {
        new.push(with_version(slot, number, version)?)?;
        left = more;
    }
    Ok(new)
}

// The slot under another name, with another row, if it has this number.
#[tactic(auto, using(crate::proofs::Names::taking))]
fn renamed(slot: &Slot, number: u64, name: &Name, row: u64) -> Result<Slot, NoMemory>
    requires { slot.now.number ≡ number → folded slot.now.name ≡ folded (replacement_of name.now) }
    ensures { IfOk result (λ new. new ≡ spec_renamed number name.now row slot.now) }
{
    if slot.number != number {
        return Ok(slot.clone()?);
    }
    Ok(Slot {
        number,
        name: name.clone()?,
        version: slot.version.clone()?,
        row,
    })
}

// Copies of indexes, of which the one of this number, a replacement, takes the name that it was built for.
fn all_renamed(
    alloc: Global,
    slots: &[Slot],
    number: u64,
    name: &Name,
    row: u64,
) -> Result<Vec<Slot>, NoMemory>
    requires { AreBeside number name.now slots.now }
    ensures { IfOk result (λ new. new.items ≡ map (spec_renamed number name.now row) slots.now) }
{
    let mut new = Vec::with_capacity(alloc, slots.len())?;
    let mut left = slots;
    while let [slot, more @ ..] = left {
        new.push(renamed(slot, number, name, row)?)?;
        left = more;
    }
    Ok(new)
}

/// Copies of the indexes except one, of which its replacement takes its name.
#[tactic(auto, using(crate::proofs::Names::kept))]
pub fn all_taken_over(
    alloc: Global,
    slots: &[Slot],
    slot: &Slot,
    replacement: &Slot,
    row: u64,
) -> Result<Vec<Slot>, NoMemory>
    requires { AreBeside replacement.now.number slot.now.name slots.now }
    ensures { IfOk result (λ new. new.items ≡ map (spec_renamed replacement.now.number slot.now.name row) (spec_without slot.now.number slots.now)) }
{
    let others = without(alloc, slots, slot.number)?;
    all_renamed(
        alloc,
        others.as_slice(),
        replacement.number,
        &slot.name,
        row,
    )
}
