//! How a replacement takes the place of the index that it was built beside.
ghost use Rattle.std.specs.Prelude.{◌≡◌, ℕ, List, IfOk, IfSome, Some, length, nat_le};
ghost use Rattle.spec_index.specs.World.{newest_read, switch as spec_switch, switched_to as spec_switched_to, takes_over as spec_takes_over};
ghost use Rattle.doc_txn.specs.SettingView.{setting_of};
ghost use Rattle.side_by_side.specs.Changes.{answer_view, change_view};
ghost use Rattle.side_by_side.specs.Naming.{AreBeside};
ghost use Rattle.side_by_side.specs.Standing.{world_of};

use crate::change::{SlotChange, SlotRefusal};
use crate::lists::{all_taken_over, copied_notes};
use crate::naming::{deleting, putting};
use crate::note::Note;
use crate::slot::Slot;
use crate::slots::Slots;
use doc_store::Store;
use doc_txn::{Commands, Limits};
use raven_base::NoMemory;
use raven_value::Name;
use std::alloc::Global;

// How far an index has come.
fn etag_of(slot: &Slot) -> u64
    ensures { result ≡ slot.now.version.etag }
{
    slot.version.etag()
}

// The note of a switch whose row has this etag.
fn note_of(slot: &Slot, replacement: &Slot, etag: u64, store: &Store) -> Result<Note, NoMemory>
    ensures { IfOk result (λ note. note ≡ record { etag = etag; name = slot.now.name; old = slot.now.number; new = replacement.now.number; index_etag = replacement.now.version.etag; newest = newest_read store.now replacement.now }) }
{
    Ok(Note {
        etag,
        name: slot.name.clone()?,
        old: slot.number,
        new: replacement.number,
        index_etag: etag_of(replacement),
        newest: replacement.newest(store),
    })
}

impl Slots {
    // The replacement takes the name, and keeps its number and what it has recorded.
    #[tactic(auto, using(crate::proofs::Rising::switching))]
    fn taken_over(
        &self,
        alloc: Global,
        slot: &Slot,
        replacement: &Slot,
        store: &Store,
    ) -> Result<SlotChange, NoMemory>
        requires { AreBeside replacement.now.number slot.now.name self.now.slots }
        ensures { (base : List ℕ) (limits : Limits) → IfOk result (λ change. change_view change ≡ spec_takes_over (world_of (setting_of base limits) store.now self.now) slot.now replacement.now) }
    {
        let etag = store.last() + 1;
        let mut commands = Commands::new(alloc);
        commands.push(putting(alloc, &slot.name, replacement.version.definition())?)?;
        commands.push(deleting(alloc, &replacement.name)?)?;
        let slots = all_taken_over(alloc, self.list(), slot, replacement, etag)?;
        let mut notes = copied_notes(alloc, self.notes())?;
        notes.push(note_of(slot, replacement, etag, store)?)?;
        Ok(SlotChange {
            slots: Slots::both(alloc, slots, notes)?,
            commands,
            name: slot.name.clone()?,
        })
    }

    // Whether there are as many notes as may be.
    fn has_full_notes(&self, limits: &Limits) -> bool
        ensures { result ≡ nat_le limits.now.notes (length self.now.notes) }
    {
        limits.notes as usize <= self.notes().len()
    }

    // Lets a replacement take the name of its index.
    fn switched_to(
        &self,
        alloc: Global,
        slot: &Slot,
        replacement: &Slot,
        store: &Store,
        limits: &Limits,
    ) -> Result<SlotChange, SlotRefusal>
        requires { AreBeside replacement.now.number slot.now.name self.now.slots }
        ensures { (base : List ℕ) → IfSome (answer_view result) (λ change. change ≡ spec_switched_to (world_of (setting_of base limits.now) store.now self.now) slot.now (Some replacement.now)) }
    {
        if self.has_full_notes(limits) {
            return Err(SlotRefusal::NotesFull);
        }
        if replacement.is_stale(store) {
            return Err(SlotRefusal::NotFresh {
                index_etag: etag_of(replacement),
                newest: replacement.newest(store),
            });
        }
        Ok(self.taken_over(alloc, slot, replacement, store)?)
    }

    /// Lets the replacement of an index take its name, if it is not stale on this very store. Of the two rows, that of the name is put first.
    pub fn switch(
        &self,
        alloc: Global,
        name: &Name,
        store: &Store,
        limits: &Limits,
    ) -> Result<SlotChange, SlotRefusal>
        ensures { (base : List ℕ) → IfSome (answer_view result) (λ change. change ≡ spec_switch (world_of (setting_of base limits.now) store.now self.now) name.now) }
    {
        let Some(slot) = self.serving(name) else {
            return Err(SlotRefusal::NoIndex);
        };
        let Some(replacement) = self.beside(alloc, slot)? else {
            return Err(SlotRefusal::NoReplacement);
        };
        self.switched_to(alloc, slot, replacement, store, limits)
    }
}
