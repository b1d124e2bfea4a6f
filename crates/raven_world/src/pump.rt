//! One batch for each index, or for one.
ghost use Rattle.std.specs.Prelude.{◌≡◌, [], IfOk, IfSome, None, Some, option_copied, take};
ghost use Rattle.std.specs.Result.{is_ok};
ghost use Rattle.spec_store.specs.Store.{last};
ghost use Rattle.spec_index.specs.World.{serving};
ghost use Rattle.spec_server.specs.Courses.{one_change};
ghost use Rattle.spec_server.specs.Batches.{pump as spec_pump, pump_at, pump_for};
ghost use Rattle.spec_server.specs.Replies.{Pumped as PumpedAll};
ghost use Rattle.side_by_side.specs.Standing.{world_of};
ghost use Rattle.slot_batches.specs.Batches.{CountFew, chosen};
ghost use Rattle.raven_world.specs.Roomy.{NumbersUpTo};
ghost use Rattle.raven_world.specs.WorldView.{answer_view, change_view};

use crate::world::{Change, World, WorldFault};
use raven_base::{NoMemory, Steps};
use raven_reply::{Pumpings, Reply, no_index};
use raven_value::{Name, Rows};
use side_by_side::Slots;
use slot_batches::bring_on;
use std::alloc::Global;
use std::sync::ledger::Ledger;
use std::thread::Threads;

// The first of these alone.
fn first_alone(pumped: Pumpings) -> Pumpings
    ensures { result ≡ take 1 pumped }
{
    let mut items = pumped.into_vec();
    items.truncate(1);
    Pumpings::of(items)
}

impl World {
    // The world with these indexes, after batches that did this.
    fn after_batches(
        &self,
        alloc: Global,
        slots: Slots,
        pumped: Pumpings,
    ) -> Result<Change, NoMemory>
        requires { NumbersUpTo (last self.now.store) slots.slots }
        ensures { IfOk result (λ change. change_view change ≡ one_change (PumpedAll pumped) [] (world_of self.now.setting self.now.store slots)) }
    {
        let world = self.with_slots(slots)?;
        let reply = Reply::Pumped { pumped };
        let rows = Rows::new(alloc);
        Ok(Change { world, rows, reply })
    }

    fn pump_all<R: Threads + Sync, L: Ledger>(
        &self,
        rt: &R,
        alloc: Global,
        max: u32,
        steps: &mut Steps<L>,
    ) -> Result<Change, NoMemory>
        ensures change { IfOk result (λ change. change_view change ≡ spec_pump self.now max) }
        ensures bounds { CountFew self.now.store max (chosen None self.now.slots) (is_ok result) steps.old steps.new }
    {
        let (slots, pumped) = bring_on(rt, alloc, &self.store, &self.slots, max, None, steps)?;
        self.after_batches(alloc, slots, pumped)
    }

    // In a sound world one index serves the name.
    fn pump_one<R: Threads + Sync, L: Ledger>(
        &self,
        rt: &R,
        alloc: Global,
        max: u32,
        name: &Name,
        steps: &mut Steps<L>,
    ) -> Result<Change, WorldFault>
        ensures course { IfSome (answer_view result) (λ course. course ≡ pump_at self.now max name.now (serving self.now.slots name.now)) }
        ensures bounds { CountFew self.now.store max (chosen (Some name.now) self.now.slots) (is_ok result) steps.old steps.new }
    {
        let index = Some(name);
        let (slots, pumped) = bring_on(rt, alloc, &self.store, &self.slots, max, index, steps)?;
        if pumped.is_empty() {
            return Err(WorldFault::Refused(no_index(alloc, name)?));
        }
        Ok(self.after_batches(alloc, slots, first_alone(pumped))?)
    }

    /// Each index, or the one of this name, catches up by one batch of at most `max` rows. A document that several of them map counts for each, and
    /// so does a row that several of them read. Entries are merged only for definitions with a reduce.
    pub fn pump<R: Threads + Sync, L: Ledger>(
        &self,
        rt: &R,
        alloc: Global,
        max: u32,
        index: Option<&Name>,
        steps: &mut Steps<L>,
    ) -> Result<Change, WorldFault>
        ensures course { IfSome (answer_view result) (λ course. course ≡ pump_for self.now max (option_copied index.entry)) }
        ensures bounds { CountFew self.now.store max (chosen (option_copied index.entry) self.now.slots) (is_ok result) steps.old steps.new }
    {
        match index {
            Some(name) => self.pump_one(rt, alloc, max, name, steps),
            None => Ok(self.pump_all(rt, alloc, max, steps)?),
        }
    }
}
