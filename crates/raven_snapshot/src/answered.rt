//! Answers, unless an automatic index has to be made first.
ghost use Rattle.std.specs.Prelude.{◌≡◌, IfOk};
ghost use Rattle.spec_index.specs.Optimiser.{pick as spec_pick};
ghost use Rattle.spec_server.specs.Indexing.{one_field};
ghost use Rattle.index_definition.specs.ShapeView.{shape_view};
ghost use Rattle.raven_snapshot.specs.AnsweredView.{answered_view, name_of_choice};

use crate::snapshot::Snapshot;
use index_definition::Shape;
use query_optimizer::{Choice, pick};
use raven_base::NoMemory;
use raven_reply::{Reply, index_reply};
use raven_value::{Path, Paths, Text};
use std::alloc::Global;

/// The answer to a query.
#[derive(Drop)]
pub enum Answered {
    /// The reply.
    Reply(Reply),

    /// An index of this shape has to be made for the query first.
    MustMake(Shape),
}

// The shape of a query for one field.
fn one_field_of(alloc: Global, collection: &Text, field: &Text) -> Result<Shape, NoMemory>
    ensures { IfOk result (λ shape. shape_view shape ≡ one_field collection.now field.now) }
{
    let mut fields = Paths::new(alloc);
    fields.push(Path::of(alloc, field.clone()?)?)?;
    Ok(Shape {
        collection: collection.clone()?,
        groups: None,
        fields,
    })
}

impl<'w> Snapshot<'w> {
    /// The name of the automatic index that serves a query of one field of a collection, or that one has to be made.
    #[tactic(auto, using(crate::proofs::Asking::names))]
    pub fn auto(&self, alloc: Global, collection: &Text, field: &Text) -> Result<Answered, NoMemory>
        ensures { IfOk result (λ answered. answered_view answered ≡ name_of_choice (spec_pick (one_field collection.now field.now) self.now.store self.now.slots)) }
    {
        let shape = one_field_of(alloc, collection, field)?;
        match pick(alloc, self.store, self.slots.list(), &shape)? {
            Choice::Use(slot) => Ok(Answered::Reply(index_reply(&slot.name)?)),
            Choice::Make(shape) => Ok(Answered::MustMake(shape)),
        }
    }
}
