//! Indexes that are defined and removed.
ghost use Rattle.std.specs.Prelude.{◌≡◌, ◌+◌, ℕ, IfOk, IfSome, length, map, nat_le};
ghost use Rattle.spec_server.specs.Requests.{Define, Remove};
ghost use Rattle.spec_server.specs.Machine.{course_of};
ghost use Rattle.spec_server.specs.Replies.{Removed as RemovedOf};
ghost use Rattle.spec_store.specs.Store.{last};
ghost use Rattle.doc_txn.specs.CommandView.{command_view, writer_view};
ghost use Rattle.index_definition.specs.DefinitionView.{definition_view};
ghost use Rattle.raven_reply.specs.ReplyView.{reply_view};
ghost use Rattle.side_by_side.specs.Changes.{MayDefine, define_by as spec_define_by};
ghost use Rattle.raven_world.specs.Slotting.{HasNumbers, Reslots};
ghost use Rattle.raven_world.specs.WorldView.{answer_view, made_view, named};

use crate::rewrite::slots_refused;
use crate::world::{Change, Made, Rewritten, World, WorldFault};
use doc_txn::Writer;
use index_definition::Definition;
use index_lang::TextDefinition;
use raven_base::NoMemory;
use raven_reply::Reply;
use raven_value::Name;
use side_by_side::SlotChange;
use std::alloc::Global;
use std::sync::Arc;

fn removed_reply(name: &Name) -> Result<Reply, NoMemory>
    ensures { IfOk result (λ reply. reply_view reply ≡ RemovedOf name.now) }
{
    Ok(Reply::Removed {
        name: name.clone()?,
    })
}

/// The definition, to be shared.
pub fn shared(alloc: Global, definition: Definition) -> Result<Arc<Definition>, NoMemory>
    ensures { IfOk result (λ shared. shared.value ≡ definition) }
{
    Ok(Arc::new(alloc, definition)?)
}

// The name of a definition.
fn own_name(definition: &Arc<Definition>) -> Result<Name, NoMemory>
    ensures { IfOk result (λ name. name ≡ definition.now.value.name) }
{
    Ok(definition.name.clone()?)
}

impl World {
    /// Whether there are as many indexes as may be.
    pub(crate) fn is_crowded(&self) -> bool
        ensures { result ≡ nat_le self.now.setting.max_slots (length self.now.slots) }
    {
        self.limits.slots as usize <= self.slots.list().len()
    }

    /// The number that an index gets that is made now.
    pub(crate) fn next_number(&self) -> u64
        ensures { result ≡ last self.now.store + 1 }
    {
        self.store.last() + 1
    }

    /// The indexes after one is defined under the name of its definition.
    pub(crate) fn with_index(
        &self,
        alloc: Global,
        definition: Arc<Definition>,
        writer: Writer,
    ) -> Result<SlotChange, WorldFault>
        requires { MayDefine (writer_view writer) self.now.slots definition.value.name (definition_view definition.value.body) }
        ensures change { Reslots definition.value.name (spec_define_by (writer_view writer) self.now definition.value.name (definition_view definition.value.body)) result }
        ensures numbers { (now : ℕ) → IfOk result (λ change. HasNumbers self.now now (map command_view change.commands) change.slots.slots) }
    {
        let name = own_name(&definition)?;
        let last = self.store.last();
        match self
            .slots
            .define(alloc, definition, writer, last, &self.limits)
        {
            Ok(change) => Ok(change),
            Err(refusal) => Err(WorldFault::Refused(slots_refused(alloc, &name, refusal)?)),
        }
    }

    /// Defines an index by name. If the name serves with another definition, the index is built beside it as its replacement, in place of an
    /// earlier one. If it serves with this one, a replacement that is being built goes.
    pub fn define(
        &self,
        alloc: Global,
        definition: TextDefinition,
        now: u64,
    ) -> Result<Made, WorldFault>
        ensures { IfSome (made_view named result) (λ course. course ≡ course_of self.now now (Define definition.name definition.definition)) }
    {
        let SlotChange {
            slots,
            commands,
            name,
        } = self.with_index(alloc, definition.into_shared(), Writer::Client)?;
        let Rewritten { world, rows } = self.rewritten(alloc, slots, commands, now)?;
        Ok(Made { world, rows, name })
    }

    /// Removes the index of a name, and its replacement if it has one. The rows of their definitions are deleted.
    pub fn remove(&self, alloc: Global, name: &Name, now: u64) -> Result<Change, WorldFault>
        ensures { IfSome (answer_view result) (λ course. course ≡ course_of self.now now (Remove name.now)) }
    {
        match self.slots.remove(alloc, name) {
            Ok(
                SlotChange {
                    slots,
                    commands,
                    name,
                },
            ) => {
                let reply = removed_reply(&name)?;
                self.rewrite(alloc, slots, commands, reply, now)
            }
            Err(refusal) => Err(WorldFault::Refused(slots_refused(alloc, name, refusal)?)),
        }
    }
}
