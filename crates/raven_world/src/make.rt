//! New automatic indexes.
ghost use Rattle.std.specs.Prelude.{◌≡◌, ℕ, IfOk, IfSome, None, false, length, map, nat_le};
ghost use Rattle.spec_query.specs.Query as query;
ghost use Rattle.spec_index.specs.Optimiser.{Make};
ghost use Rattle.spec_index.specs.World.{serving};
ghost use Rattle.spec_server.specs.Asking.{MustMake};
ghost use Rattle.spec_server.specs.Indexing.{ask_course, made_name, make as spec_make, use_or_make};
ghost use Rattle.doc_txn.specs.CommandView.{command_view};
ghost use Rattle.index_definition.specs.ShapeView.{shape_view};
ghost use Rattle.raven_world.specs.Slotting.{HasNumbers, Reslots};
ghost use Rattle.raven_world.specs.WorldView.{answering, made_view, named};

use crate::define::shared;
use crate::world::{Made, Rewritten, World, WorldFault};
use doc_txn::Writer;
use index_definition::{Shape, auto_definition};
use query_optimizer::auto_name;
use raven_base::NoMemory;
use raven_reply::Reply;
use raven_value::Name;
use side_by_side::SlotChange;
use std::alloc::Global;

impl World {
    // The name of a new index, which none has yet.
    fn new_name(&self, alloc: Global, shape: &Shape) -> Result<Name, NoMemory>
        requires { nat_le self.now.setting.max_slots (length self.now.slots) ≡ false }
        ensures name { IfOk result (λ name. name ≡ made_name self.now (shape_view shape.now)) }
        ensures free { IfOk result (λ name. serving self.now.slots name ≡ None) }
    {
        auto_name(alloc, self.slots.list(), self.next_number(), shape)
    }

    // The indexes with a new one of this shape.
    fn with_new(&self, alloc: Global, shape: Shape) -> Result<SlotChange, WorldFault>
        ensures change { Reslots (made_name self.now (shape_view shape)) (spec_make self.now (shape_view shape)) result }
        ensures numbers { (now : ℕ) → IfOk result (λ change. HasNumbers self.now now (map command_view change.commands) change.slots.slots) }
    {
        if self.is_crowded() {
            return Err(WorldFault::Refused(Reply::TooManyIndexes));
        }
        let name = self.new_name(alloc, &shape)?;
        let definition = shared(alloc, auto_definition(name, shape))?;
        self.with_index(alloc, definition, Writer::Server)
    }

    /// Makes an automatic index of this shape. What is asked of it is told in the world that this leaves.
    pub fn make(&self, alloc: Global, shape: Shape, now: u64) -> Result<Made, WorldFault>
        ensures named { IfSome (made_view named result) (λ course. course ≡ use_or_make self.now now (Make (shape_view shape))) }
        ensures asked { (ask : query.Ask) →
            IfSome (made_view (answering ask) result) (λ course. course ≡ ask_course self.now now ask (MustMake (shape_view shape))) }
    {
        let SlotChange {
            slots,
            commands,
            name,
        } = self.with_new(alloc, shape)?;
        let Rewritten { world, rows } = self.rewritten(alloc, slots, commands, now)?;
        Ok(Made { world, rows, name })
    }
}
