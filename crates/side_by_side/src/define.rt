//! How an index is defined.
ghost use Rattle.std.specs.Prelude.{◌≡◌, ◌+◌, ◌++◌, ◌∷◌, ◌≤◌, [], IfOk, None, Ok, Some, false, length, nat_lt, option_copied};
ghost use Rattle.std.specs.List.{All};
ghost use Rattle.spec_data.specs.Faults.{replacement_of as spec_replacement_of};
ghost use Rattle.spec_data.specs.Limits.{max_etag};
ghost use Rattle.index_tree.specs.Definitions.{same_definition};
ghost use Rattle.spec_store.specs.Commit.{AnyVector, Delete, Put, Setting};
ghost use Rattle.spec_store.specs.Store.{Store, last};
ghost use Rattle.spec_index.specs.World.{added_if_room as spec_added_if_room, begins_with_replacement, define_at as spec_define_at, define_beside as spec_define_beside, define_named as spec_define_named, index_id, is_reserved_name as spec_is_reserved_name, max_index_name, new_version, row_body, serving as spec_serving, without as spec_without};
ghost use Rattle.doc_txn.specs.CommandView.{writer_view};
ghost use Rattle.index_definition.specs.DefinitionView.{definition_view};
ghost use Rattle.side_by_side.specs.Changes.{Changes, MayDefine, change_view, defines};
ghost use Rattle.side_by_side.specs.Naming.{IsNamedAs, IsServedBy, RiseTo};
ghost use Rattle.side_by_side.specs.Standing.{world_of};

use crate::change::{SlotChange, SlotRefusal};
use crate::lists::{copies, without};
use crate::naming::{deleting, is_reserved_name, putting};
use crate::slot::Slot;
use crate::slots::Slots;
use doc_txn::{Commands, Limits, Writer};
use index_definition::{Definition, same};
use raven_base::NoMemory;
use raven_value::{MAX_INDEX_NAME, Name};
use std::alloc::Global;
use std::sync::Arc;

// Whether the index has this definition, whatever their names.
fn defines(slot: &Slot, definition: &Arc<Definition>) -> bool
    ensures { result ≡ same_definition (definition_view definition.now.value.body) slot.now.version.definition }
{
    same(definition, slot.version.definition())
}

// The name of the replacement of an index.
fn replacement_of(alloc: Global, slot: &Slot) -> Result<Name, NoMemory>
    requires { length slot.now.name ≤ max_index_name }
    ensures { IfOk result (λ name. name ≡ spec_replacement_of slot.now.name) }
{
    slot.name.replacement(alloc)
}

// Whether only the server gives the name of a definition.
fn has_reserved_name(definition: &Arc<Definition>) -> bool
    ensures { result ≡ spec_is_reserved_name definition.now.value.name }
{
    is_reserved_name(definition.name.as_str())
}

// Whether the name of a definition is longer than a client may give.
fn has_long_name(definition: &Arc<Definition>) -> bool
    ensures { result ≡ nat_lt max_index_name (length definition.now.value.name) }
{
    definition.name.as_str().len() > MAX_INDEX_NAME
}

// The name of a definition.
fn own_name(definition: &Arc<Definition>) -> Result<Name, NoMemory>
    ensures { IfOk result (λ name. name ≡ definition.now.value.name) }
{
    Ok(definition.name.clone()?)
}

impl Slots {
    // The index that serves the name of a definition.
    fn served_by(&self, definition: &Arc<Definition>) -> Option<&Slot>
        ensures { option_copied result ≡ spec_serving self.now.slots definition.now.value.name }
    {
        self.serving(&definition.name)
    }

    // No change.
    fn unchanged(&self, alloc: Global, name: &Name) -> Result<SlotChange, NoMemory>
        ensures { IfOk result (λ change. change_view change ≡ record { slots = self.now.slots; notes = self.now.notes; commands = []; name = name.now }) }
    {
        Ok(SlotChange {
            slots: self.clone()?,
            commands: Commands::new(alloc),
            name: name.clone()?,
        })
    }

    // A replacement goes, whose definition is no longer wanted. The change is about this name.
    #[tactic(auto, using(crate::proofs::Rising::filtering))]
    fn dropped(
        &self,
        alloc: Global,
        replacement: &Slot,
        name: &Name,
    ) -> Result<SlotChange, NoMemory>
        ensures { IfOk result (λ change. change_view change ≡ record { slots = spec_without replacement.now.number self.now.slots; notes = self.now.notes; commands = Delete (index_id replacement.now.name) AnyVector ∷ []; name = name.now }) }
    {
        let mut commands = Commands::new(alloc);
        commands.push(deleting(alloc, &replacement.name)?)?;
        let others = without(alloc, self.list(), replacement.number)?;
        self.changed(alloc, others, commands, name)
    }

    // These indexes with a new one behind them, whose number is the etag after the last.
    #[tactic(auto, using(crate::proofs::Rising::adding))]
    fn added_to(
        &self,
        alloc: Global,
        others: Vec<Slot>,
        name: Name,
        definition: Arc<Definition>,
        latest: u64,
    ) -> Result<SlotChange, NoMemory>
        requires latest { latest ≤ max_etag }
        requires numbers { RiseTo 0 latest others.items }
        requires named { IsNamedAs name definition.value.name }
        ensures { IfOk result (λ change. change_view change ≡ record {
          slots = others.items ++ record { number = latest + 1; name = name; version = new_version (definition_view definition.value.body); row = latest + 1 } ∷ [];
          notes = self.now.notes;
          commands = Put (index_id name) AnyVector (row_body (definition_view definition.value.body)) ∷ [];
          name = name;
        }) }
    {
        let mut commands = Commands::new(alloc);
        commands.push(putting(alloc, &name, &definition)?)?;
        let mut slots = others;
        slots.push(Slot::fresh(alloc, latest + 1, name.clone()?, definition)?)?;
        self.changed(alloc, slots, commands, &name)
    }

    // A new index behind those that there are, if there may be more.
    #[tactic(auto, using(crate::proofs::Rising::adding))]
    fn added_if_room(
        &self,
        alloc: Global,
        name: Name,
        definition: Arc<Definition>,
        latest: u64,
        limits: &Limits,
    ) -> Result<SlotChange, SlotRefusal>
        requires latest { latest ≤ max_etag }
        requires numbers { All (λ s. s.number ≤ latest) self.now.slots }
        requires named { IsNamedAs name definition.value.name }
        ensures { Changes limits.now.slots latest self.now (λ W. spec_added_if_room W name (definition_view definition.value.body)) result }
    {
        if limits.slots as usize <= self.list().len() {
            return Err(SlotRefusal::TooManyIndexes);
        }
        let slots = copies(alloc, self.list())?;
        Ok(self.added_to(alloc, slots, name, definition, latest)?)
    }

    // A new index under the name of its definition, if there may be more.
    fn add(
        &self,
        alloc: Global,
        definition: Arc<Definition>,
        latest: u64,
        limits: &Limits,
    ) -> Result<SlotChange, SlotRefusal>
        requires latest { latest ≤ max_etag }
        requires numbers { All (λ s. s.number ≤ latest) self.now.slots }
        requires named { IsNamedAs definition.value.name definition.value.name }
        ensures { Changes limits.now.slots latest self.now (λ W. spec_added_if_room W definition.value.name (definition_view definition.value.body)) result }
    {
        let name = own_name(&definition)?;
        self.added_if_room(alloc, name, definition, latest, limits)
    }

    // A definition for the name that an index without a replacement serves.
    #[tactic(auto, using(crate::proofs::Names::replacing))]
    fn define_alone(
        &self,
        alloc: Global,
        slot: &Slot,
        definition: Arc<Definition>,
        latest: u64,
        limits: &Limits,
    ) -> Result<SlotChange, SlotRefusal>
        requires latest { latest ≤ max_etag }
        requires numbers { All (λ s. s.number ≤ latest) self.now.slots }
        requires served { IsServedBy definition.value.name slot.now.name }
        ensures { Changes limits.now.slots latest self.now (λ W. spec_define_beside W (definition_view definition.value.body) slot.now None) result }
    {
        if defines(slot, &definition) {
            return Ok(self.unchanged(alloc, &slot.name)?);
        }
        let name = replacement_of(alloc, slot)?;
        self.added_if_room(alloc, name, definition, latest, limits)
    }

    // A definition for the name that an index with a replacement serves.
    #[tactic(auto, using(crate::proofs::Rising::adding, crate::proofs::Names::replacing))]
    fn define_over(
        &self,
        alloc: Global,
        slot: &Slot,
        replacement: &Slot,
        definition: Arc<Definition>,
        latest: u64,
    ) -> Result<SlotChange, NoMemory>
        requires latest { latest ≤ max_etag }
        requires numbers { All (λ s. s.number ≤ latest) self.now.slots }
        requires served { IsServedBy definition.value.name slot.now.name }
        ensures { (setting : Setting) (S : Store) → last S ≡ latest →
            IfOk result (λ change. Ok (change_view change) ≡ spec_define_beside (world_of setting S self.now) (definition_view definition.value.body) slot.now (Some replacement.now)) }
    {
        if defines(slot, &definition) {
            return self.dropped(alloc, replacement, &slot.name);
        }
        if defines(replacement, &definition) {
            return self.unchanged(alloc, &replacement.name);
        }
        let others = without(alloc, self.list(), replacement.number)?;
        let name = replacement_of(alloc, slot)?;
        self.added_to(alloc, others, name, definition, latest)
    }

    // A definition for the name that an index serves.
    fn define_beside(
        &self,
        alloc: Global,
        slot: &Slot,
        definition: Arc<Definition>,
        latest: u64,
        limits: &Limits,
    ) -> Result<SlotChange, SlotRefusal>
        requires latest { latest ≤ max_etag }
        requires numbers { All (λ s. s.number ≤ latest) self.now.slots }
        requires served { IsServedBy definition.value.name slot.now.name }
        ensures { Changes limits.now.slots latest self.now (λ W. spec_define_beside W (definition_view definition.value.body) slot.now (spec_serving self.now.slots (spec_replacement_of slot.now.name))) result }
    {
        match self.beside(alloc, slot)? {
            Some(replacement) => {
                Ok(self.define_over(alloc, slot, replacement, definition, latest)?)
            }
            None => self.define_alone(alloc, slot, definition, latest, limits),
        }
    }

    // A client's definition, of a name that it may give.
    #[tactic(auto, using(crate::proofs::Names::defining))]
    fn define_at(
        &self,
        alloc: Global,
        definition: Arc<Definition>,
        latest: u64,
        limits: &Limits,
    ) -> Result<SlotChange, SlotRefusal>
        requires latest { latest ≤ max_etag }
        requires numbers { All (λ s. s.number ≤ latest) self.now.slots }
        requires plain { begins_with_replacement definition.value.name ≡ false }
        requires short { length definition.value.name ≤ max_index_name }
        ensures { Changes limits.now.slots latest self.now (λ W. spec_define_at W definition.value.name (definition_view definition.value.body) (spec_serving self.now.slots definition.value.name)) result }
    {
        match self.served_by(&definition) {
            Some(slot) => self.define_beside(alloc, slot, definition, latest, limits),
            None => self.add(alloc, definition, latest, limits),
        }
    }

    // A client's definition.
    #[tactic(auto, using(crate::proofs::Names::defining, crate::proofs::Changing::defining))]
    fn define_named(
        &self,
        alloc: Global,
        definition: Arc<Definition>,
        latest: u64,
        limits: &Limits,
    ) -> Result<SlotChange, SlotRefusal>
        requires latest { latest ≤ max_etag }
        requires numbers { All (λ s. s.number ≤ latest) self.now.slots }
        ensures { Changes limits.now.slots latest self.now (λ W. spec_define_named W definition.value.name (definition_view definition.value.body)) result }
    {
        if has_reserved_name(&definition) {
            return Err(SlotRefusal::ReservedName);
        }
        if has_long_name(&definition) {
            let len = definition.name.as_str().len() as u64;
            return Err(SlotRefusal::NameTooLong { len });
        }
        self.define_at(alloc, definition, latest, limits)
    }

    /// Defines an index, where `latest` is the store's last etag.
    ///
    /// A client's definition of a name that is served, if it is another one than that which serves, becomes a replacement, in place of an earlier
    /// one. If it is that which serves, an earlier replacement goes. The server defines automatic indexes, under names that are free.
    #[tactic(auto, using(crate::proofs::Names::defining))]
    pub fn define(
        &self,
        alloc: Global,
        definition: Arc<Definition>,
        writer: Writer,
        latest: u64,
        limits: &Limits,
    ) -> Result<SlotChange, SlotRefusal>
        requires latest { latest ≤ max_etag }
        requires numbers { All (λ s. s.number ≤ latest) self.now.slots }
        requires may { MayDefine (writer_view writer) self.now.slots definition.value.name (definition_view definition.value.body) }
        ensures { Changes limits.now.slots latest self.now (defines (writer_view writer) definition.value.name (definition_view definition.value.body)) result }
    {
        match writer {
            Writer::Client => self.define_named(alloc, definition, latest, limits),
            Writer::Server => self.add(alloc, definition, latest, limits),
        }
    }
}
