//! How an index is removed.
ghost use Rattle.std.specs.Prelude.{◌≡◌, IfOk, IfSome, option_copied, string_bytes};
ghost use Rattle.spec_data.specs.Faults.{replacement_of};
ghost use Rattle.spec_store.specs.Commit.{Setting};
ghost use Rattle.spec_store.specs.Store.{Store};
ghost use Rattle.spec_index.specs.World.{remove as spec_remove, serving as spec_serving, taken_out as spec_taken_out};
ghost use Rattle.side_by_side.specs.Changes.{answer_view, change_view};
ghost use Rattle.side_by_side.specs.Naming.{AreBeside};
ghost use Rattle.side_by_side.specs.Standing.{world_of};

use crate::change::{SlotChange, SlotRefusal};
use crate::lists::{serving_in, without};
use crate::naming::deleting;
use crate::slot::Slot;
use crate::slots::Slots;
use doc_txn::Commands;
use raven_base::NoMemory;
use raven_value::Name;
use std::alloc::Global;

// What the replacement of an index is called.
fn replacement_name(alloc: Global, slot: &Slot) -> Result<String, NoMemory>
    ensures { IfOk result (λ text. string_bytes text ≡ replacement_of slot.now.name) }
{
    let mut text = String::from_str(alloc, "ReplacementOf/")?;
    text.push_str(slot.name.as_str())?;
    Ok(text)
}

impl Slots {
    /// The replacement of an index, if it has one. No other index has its number.
    #[tactic(auto, using(crate::proofs::Names::beside_it))]
    pub(crate) fn beside(&self, alloc: Global, slot: &Slot) -> Result<Option<&Slot>, NoMemory>
        ensures found { IfOk result (λ beside. option_copied beside ≡ spec_serving self.now.slots (replacement_of slot.now.name)) }
        ensures alone { IfOk result (λ beside. IfSome beside (λ r. AreBeside r.now.number slot.now.name self.now.slots)) }
    {
        let name = replacement_name(alloc, slot)?;
        Ok(serving_in(self.list(), name.as_str()))
    }

    /// Removes the index that serves a name, and its replacement if it has one. Their rows are deleted, in this order.
    pub fn remove(&self, alloc: Global, name: &Name) -> Result<SlotChange, SlotRefusal>
        ensures { (setting : Setting) (S : Store) → IfSome (answer_view result) (λ change. change ≡ spec_remove (world_of setting S self.now) name.now) }
    {
        let Some(slot) = self.serving(name) else {
            return Err(SlotRefusal::NoIndex);
        };
        Ok(self.taken_out(alloc, slot)?)
    }

    #[tactic(auto, using(crate::proofs::Rising::filtering))]
    fn taken_out(&self, alloc: Global, slot: &Slot) -> Result<SlotChange, NoMemory>
        ensures { (setting : Setting) (S : Store) → IfOk result (λ change. change_view change ≡ spec_taken_out (world_of setting S self.now) slot.now (spec_serving self.now.slots (replacement_of slot.now.name))) }
    {
        let mut commands = Commands::new(alloc);
        commands.push(deleting(alloc, &slot.name)?)?;
        let others = without(alloc, self.list(), slot.number)?;
        let Some(replacement) = self.beside(alloc, slot)? else {
            return self.changed(alloc, others, commands, &slot.name);
        };
        commands.push(deleting(alloc, &replacement.name)?)?;
        let others = without(alloc, others.as_slice(), replacement.number)?;
        self.changed(alloc, others, commands, &slot.name)
    }
}
