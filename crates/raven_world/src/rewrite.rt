//! Changes of the indexes, whose rows the server writes.
ghost use Rattle.std.specs.Prelude.{◌≡◌, ℕ, List, IfOk, IfSome, Some, map, option_map};
ghost use Rattle.spec_store.specs.Commit.{Server, commit as spec_commit};
ghost use Rattle.spec_server.specs.Indexing.{rewrote, slot_refused};
ghost use Rattle.doc_txn.specs.CommandView.{command_view};
ghost use Rattle.raven_reply.specs.ReplyView.{reply_view};
ghost use Rattle.raven_world.specs.Slotting.{HasNumbers, Rewrites, change_to, refusal_view};
ghost use Rattle.raven_world.specs.WorldView.{answer_view};

use crate::world::{Change, Rewritten, World, WorldFault};
use crate::write::refused_at;
use doc_txn::{Commands, TxnFault, Writer, commit};
use raven_base::NoMemory;
use raven_reply::{Reply, no_index};
use raven_value::Name;
use side_by_side::{SlotRefusal, Slots};
use std::alloc::Global;

/// The reply if the indexes are not changed, where a request is about this name.
pub(crate) fn slots_refused(
    alloc: Global,
    name: &Name,
    refusal: SlotRefusal,
) -> Result<Reply, NoMemory>
    ensures { IfOk result (λ reply. option_map (slot_refused name.now) (refusal_view refusal) ≡ Some (reply_view reply)) }
{
    match refusal {
        SlotRefusal::NoIndex => no_index(alloc, name),
        SlotRefusal::TooManyIndexes => Ok(Reply::TooManyIndexes),
        SlotRefusal::NotFresh { index_etag, newest } => Ok(Reply::NotFresh { index_etag, newest }),
        SlotRefusal::NoReplacement => Ok(Reply::NoReplacement),
        SlotRefusal::NotesFull => Ok(Reply::NotesFull),
        SlotRefusal::ReservedName => Ok(Reply::ReservedName),
        SlotRefusal::NameTooLong { len } => Ok(Reply::NameTooLong { len }),
        SlotRefusal::NoMemory => Err(NoMemory),
    }
}

impl World {
    /// The world with these indexes, once the server has committed their commands.
    pub(crate) fn rewritten(
        &self,
        alloc: Global,
        slots: Slots,
        commands: Commands,
        now: u64,
    ) -> Result<Rewritten, WorldFault>
        requires { HasNumbers self.now now (map command_view commands) slots.slots }
        ensures { Rewrites self.now now slots (map command_view commands) result }
    {
        match commit(
            alloc,
            &self.store,
            commands,
            Writer::Server,
            &self.base,
            &self.limits,
            now,
        ) {
            Ok((store, rows)) => {
                let world = self.with(store, slots)?;
                Ok(Rewritten { world, rows })
            }
            Err(TxnFault::Refused { at, kind }) => Err(WorldFault::Refused(refused_at(at, kind))),
            Err(TxnFault::NoMemory) => Err(WorldFault::NoMemory),
        }
    }

    /// The same with a reply.
    pub(crate) fn rewrite(
        &self,
        alloc: Global,
        slots: Slots,
        commands: Commands,
        reply: Reply,
        now: u64,
    ) -> Result<Change, WorldFault>
        requires { HasNumbers self.now now (map command_view commands) slots.slots }
        ensures { (name : List ℕ) → let change = change_to slots (map command_view commands) name in
            IfSome (answer_view result) (λ course. course ≡ rewrote self.now (reply_view reply) change (spec_commit self.now.setting Server now change.commands self.now.store)) }
    {
        let Rewritten { world, rows } = self.rewritten(alloc, slots, commands, now)?;
        Ok(Change { world, rows, reply })
    }
}
