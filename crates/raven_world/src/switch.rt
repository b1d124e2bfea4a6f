//! Replacements that take the names of their indexes, and automatic indexes that go.
ghost use Rattle.std.specs.Prelude.{◌≡◌, ◌+◌, ℕ, List, IfOk, IfSome, is_none};
ghost use Rattle.spec_index.specs.World.{World as WorldOf, switch as spec_switch};
ghost use Rattle.spec_server.specs.Requests.{Switch};
ghost use Rattle.spec_server.specs.Courses.{Course};
ghost use Rattle.spec_server.specs.Indexing.{replaced_names, retire as spec_retire, try_switch as spec_try_switch};
ghost use Rattle.spec_server.specs.Machine.{course_of};
ghost use Rattle.raven_world.specs.Slotting.{refusal_view};
ghost use Rattle.raven_world.specs.WorldView.{answer_view, tried_view};

use crate::rewrite::slots_refused;
use crate::world::{Change, Rewritten, World, WorldFault};
use raven_base::NoMemory;
use raven_reply::{IndexNames, Reply};
use raven_value::{Name, Rows};
use side_by_side::{Retirement, SlotChange, SlotRefusal};
use std::alloc::Global;

/// A world after a switch, and the rows that its keeper is to take.
#[derive(Drop)]
pub struct Taken {
    pub world: World,
    pub rows: Rows,

    /// The name, as its index spells it.
    pub name: Name,
}

// Whether no memory was found.
fn is_lack(refusal: &SlotRefusal) -> bool
    ensures { result ≡ is_none (refusal_view refusal.now) }
{
    match refusal {
        SlotRefusal::NoMemory => true,
        SlotRefusal::NoIndex
        | SlotRefusal::TooManyIndexes
        | SlotRefusal::NotFresh { .. }
        | SlotRefusal::NoReplacement
        | SlotRefusal::NotesFull
        | SlotRefusal::ReservedName
        | SlotRefusal::NameTooLong { .. } => false,
    }
}

impl World {
    /// Lets the replacement of an index take its name, if it is not stale.
    pub fn switch(&self, alloc: Global, name: &Name, now: u64) -> Result<Change, WorldFault>
        ensures { IfSome (answer_view result) (λ course. course ≡ course_of self.now now (Switch name.now)) }
    {
        match self.slots.switch(alloc, name, &self.store, &self.limits) {
            Ok(
                SlotChange {
                    slots,
                    commands,
                    name,
                },
            ) => {
                let etag = self.next_number();
                self.rewrite(alloc, slots, commands, Reply::Switched { etag, name }, now)
            }
            Err(refusal) => Err(WorldFault::Refused(slots_refused(alloc, name, refusal)?)),
        }
    }

    /// The same without a reply, or nothing if the name may not be switched.
    pub fn try_switch(
        &self,
        alloc: Global,
        name: &Name,
        now: u64,
    ) -> Result<Option<Taken>, WorldFault>
        ensures { (switched : List (List ℕ)) (more : WorldOf → List (List ℕ) → Course)
            → IfSome (tried_view self.now switched more result) (λ course. course ≡ spec_try_switch self.now now switched more (spec_switch self.now name.now)) }
    {
        match self.slots.switch(alloc, name, &self.store, &self.limits) {
            Ok(
                SlotChange {
                    slots,
                    commands,
                    name,
                },
            ) => {
                let Rewritten { world, rows } = self.rewritten(alloc, slots, commands, now)?;
                Ok(Some(Taken { world, rows, name }))
            }
            Err(refusal) => {
                if is_lack(&refusal) {
                    Err(WorldFault::NoMemory)
                } else {
                    Ok(None)
                }
            }
        }
    }

    /// The names that have a replacement, in the order of their folded bytes.
    pub fn replaced(&self, alloc: Global) -> Result<Vec<Name>, NoMemory>
        ensures { IfOk result (λ names. names.items ≡ replaced_names self.now) }
    {
        self.slots.replaced(alloc)
    }

    /// Takes out each automatic index that another one answers for. The reply has their names, and those that were switched before.
    pub fn retire(&self, alloc: Global, switched: Vec<Name>, now: u64) -> Result<Change, WorldFault>
        ensures { IfSome (answer_view result) (λ course. course ≡ spec_retire self.now now switched.items) }
    {
        let Retirement {
            slots,
            commands,
            names,
        } = self.slots.retire(alloc)?;
        let retired = IndexNames::of(names);
        let switched = IndexNames::of(switched);
        self.rewrite(
            alloc,
            slots,
            commands,
            Reply::Tidied { retired, switched },
            now,
        )
    }
}
