//! Which automatic indexes are no longer needed.
ghost use Rattle.std.specs.Prelude.{◌≡◌, IfOk, filter, map, not};
ghost use Rattle.spec_store.specs.Commit.{AnyVector, Delete, Setting};
ghost use Rattle.spec_store.specs.Store.{Store};
ghost use Rattle.spec_index.specs.Optimiser.{is_retired as spec_is_retired, is_wider as spec_is_wider, outdoes as spec_outdoes, retired, retirement, slot_shape};
ghost use Rattle.spec_index.specs.World.{index_id};
ghost use Rattle.doc_txn.specs.CommandView.{command_view};
ghost use Rattle.side_by_side.specs.Changes.{IsRetirement};
ghost use Rattle.side_by_side.specs.Standing.{world_of};

use crate::naming::deleting;
use crate::slot::Slot;
use crate::slots::Slots;
use doc_txn::Commands;
use raven_base::NoMemory;
use raven_value::Name;
use std::alloc::Global;

/// The indexes without the retired ones, and the commands by which the rows of these are deleted.
#[derive(Drop)]
pub struct Retirement {
    pub slots: Slots,
    pub commands: Commands,

    /// The names of the retired indexes, by number.
    pub names: Vec<Name>,
}

// Whether one automatic index covers another and has more fields.
fn is_wider(wider: &Slot, slot: &Slot) -> bool
    ensures { result ≡ spec_is_wider (slot_shape wider.now) (slot_shape slot.now) }
{
    let Some(shape) = slot.shape() else {
        return false;
    };
    match wider.shape() {
        Some(other) => auto_merge::is_wider(other, shape),
        None => false,
    }
}

// Whether one index answers all that another answers, has more fields, and is no further back.
fn outdoes(wider: &Slot, slot: &Slot) -> bool
    ensures { result ≡ spec_outdoes wider.now slot.now }
{
    is_wider(wider, slot) && slot.version.etag() <= wider.version.etag()
}

fn is_retired(slots: &[Slot], slot: &Slot) -> bool
    ensures { result ≡ spec_is_retired slots.now slot.now }
{
    slots.iter().any(|other| outdoes(other, slot))
}

// The names of the retired indexes.
fn retired_names(alloc: Global, slots: &[Slot]) -> Result<Vec<Name>, NoMemory>
    ensures { IfOk result (λ names. names.items ≡ map (λ s. s.name) (retired slots.now)) }
{
    let mut names = Vec::new(alloc);
    for slot in slots {
        if is_retired(slots, slot) {
            names.push(slot.name.clone()?)?;
        }
    }
    Ok(names)
}

// Copies of the other indexes.
fn kept(alloc: Global, slots: &[Slot]) -> Result<Vec<Slot>, NoMemory>
    ensures { IfOk result (λ new. new.items ≡ filter (λ s. not (spec_is_retired slots.now s)) slots.now) }
{
    let mut new = Vec::new(alloc);
    for slot in slots {
        if !is_retired(slots, slot) {
            new.push(slot.clone()?)?;
        }
    }
    Ok(new)
}

// The commands by which the definitions of these names are deleted.
fn deleting_all(alloc: Global, names: &[Name]) -> Result<Commands, NoMemory>
    ensures { IfOk result (λ commands. map command_view commands ≡ map (λ name. Delete (index_id name) AnyVector) names.now) }
{
    let mut commands = Commands::new(alloc);
    for name in names {
        commands.push(deleting(alloc, name)?)?;
    }
    Ok(commands)
}

impl Slots {
    /// Takes out each automatic index that another outdoes.
    pub fn retire(&self, alloc: Global) -> Result<Retirement, NoMemory>
        ensures { (setting : Setting) (S : Store) → IfOk result (IsRetirement (world_of setting S self.now)) }
    {
        let names = retired_names(alloc, self.list())?;
        let slots = self.with_list(alloc, kept(alloc, self.list())?)?;
        let commands = deleting_all(alloc, names.as_slice())?;
        Ok(Retirement {
            slots,
            commands,
            names,
        })
    }
}
