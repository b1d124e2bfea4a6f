//! The live indexes and the notes of their switches.
ghost use Rattle.std.specs.Prelude.{◌≡◌, [], IfOk, IsSomeAnd, map, option_copied};
ghost use Rattle.spec_index.specs.World.{NumbersRise, numbered as spec_numbered, serving as spec_serving, with_version as spec_with_version};
ghost use Rattle.side_by_side.specs.Naming.{IsVersionOf};
ghost use Rattle.side_by_side.specs.Standing.{with_slots};

use crate::lists::{all_with_version, numbered_in, serving_in};
use crate::note::Note;
use crate::slot::Slot;
use index_version::IndexVersion;
use raven_base::{NoMemory, Shared};
use raven_value::Name;
use std::alloc::{AllocError, Global};
use std::marker::Model;
use std::sync::Arc;

/// The live indexes of a database and the notes of their switches, seen by contracts as both lists. The numbers of the indexes rise.
///
/// Its clones share both lists.
pub struct Slots {
    slots: Shared<Vec<Slot>>,
    notes: Shared<Vec<Note>>,
}

// Opaque drop: see raven_base.
impl Drop for Slots {
    fn drop(self) {
        let Slots {
            slots: _slots,
            notes: _notes,
        } = self;
    }
}

impl Model for Slots {
    ghost use Rattle.spec_index.specs.World.{NumbersRise};
    ghost use Rattle.side_by_side.specs.Standing.{Standing, standing_code};

    ghost Value = { Standing };

    ghost coded = { standing_code };

    ghost view = { λ a. record { slots = a.slots.items; notes = a.notes.items } };

    ghost invariant = { λ a. NumbersRise 0 a.slots.items };
}

impl Clone for Slots {
    ghost is_clone = { λ s t. t ≡ s };

    fn clone(&self) -> Result<Slots, AllocError> {
        Ok(Slots {
            slots: self.slots.clone()?,
            notes: self.notes.clone()?,
        })
    }
}

impl Slots {
    /// These indexes, without a note.
    pub fn of(alloc: Global, slots: Vec<Slot>) -> Result<Slots, NoMemory>
        requires { NumbersRise 0 slots.items }
        ensures { IfOk result (λ made. made ≡ record { slots = slots.items; notes = [] }) }
    {
        Ok(Slots {
            slots: Shared::of(alloc, slots)?,
            notes: Shared::of(alloc, Vec::new(alloc))?,
        })
    }

    /// These indexes with the notes that there are.
    pub fn with_list(&self, alloc: Global, slots: Vec<Slot>) -> Result<Slots, NoMemory>
        requires { NumbersRise 0 slots.items }
        ensures { IfOk result (λ made. made ≡ with_slots self.now slots.items) }
    {
        Ok(Slots {
            slots: Shared::of(alloc, slots)?,
            notes: self.notes.clone()?,
        })
    }

    /// These indexes with these notes.
    pub(crate) fn both(alloc: Global, slots: Vec<Slot>, notes: Vec<Note>) -> Result<Slots, NoMemory>
        requires { NumbersRise 0 slots.items }
        ensures { IfOk result (λ made. made ≡ record { slots = slots.items; notes = notes.items }) }
    {
        Ok(Slots {
            slots: Shared::of(alloc, slots)?,
            notes: Shared::of(alloc, notes)?,
        })
    }

    /// The indexes, by number.
    pub fn list(&self) -> &[Slot]
        ensures slots { result.now ≡ self.now.slots }
        ensures rising { NumbersRise 0 result.now }
    {
        self.slots.get().as_slice()
    }

    /// The notes, in the order of the switches.
    pub fn notes(&self) -> &[Note]
        ensures { result.now ≡ self.now.notes }
    {
        self.notes.get().as_slice()
    }

    /// The index that serves a name.
    pub fn serving(&self, name: &Name) -> Option<&Slot>
        ensures { option_copied result ≡ spec_serving self.now.slots name.now }
    {
        serving_in(self.list(), name.as_str())
    }

    /// The index of a number.
    pub fn numbered(&self, number: u64) -> Option<&Slot>
        ensures { option_copied result ≡ spec_numbered self.now.slots number }
    {
        numbered_in(self.list(), number)
    }

    /// These indexes, of which the live one of this number has another version of the same definition.
    #[tactic(auto, using(crate::proofs::Names::versions))]
    pub fn with_version(
        &self,
        alloc: Global,
        number: u64,
        version: Arc<IndexVersion>,
    ) -> Result<Slots, NoMemory>
        requires { IsSomeAnd (spec_numbered self.now.slots number) (IsVersionOf version.value) }
        ensures { IfOk result (λ slots. slots ≡ with_slots self.now (map (spec_with_version number version.value.version) self.now.slots)) }
    {
        let slots = all_with_version(alloc, self.list(), number, &version)?;
        self.with_list(alloc, slots)
    }
}
