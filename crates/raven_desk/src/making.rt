//! What a request does that makes an automatic index first: the index is asked in the world that it was made in.
ghost use Rattle.std.specs.Prelude.{◌≡◌, IfOk, IfSome};
ghost use Rattle.spec_index.specs.Optimiser.{Make};
ghost use Rattle.spec_server.specs.Asking.{MustMake};
ghost use Rattle.spec_server.specs.Indexing.{ask_course, use_or_make};
ghost use Rattle.index_definition.specs.ShapeView.{shape_view};
ghost use Rattle.raven_reply.specs.ReplyView.{reply_view};
ghost use Rattle.raven_snapshot.specs.Asked.{ReadsWhatItCounts};
ghost use Rattle.raven_world.specs.WorldView.{answer_view};

use index_definition::Shape;
use raven_base::Steps;
use raven_reply::index_reply;
use raven_snapshot::Snapshot;
use raven_world::{Change, Made, World, WorldFault};
use rql_plan::QueryAsk;
use std::alloc::Global;
use std::sync::ledger::Ledger;

/// Makes an automatic index of this shape, and replies with its name.
pub(crate) fn make(
    alloc: Global,
    world: &World,
    shape: Shape,
    now: u64,
) -> Result<Change, WorldFault>
    ensures { IfSome (answer_view result) (λ course. course ≡ use_or_make world.now now (Make (shape_view shape))) }
{
    let Made { world, rows, name } = world.make(alloc, shape, now)?;
    let reply = index_reply(&name)?;
    Ok(Change { world, rows, reply })
}

/// Makes an automatic index of this shape for a query, and answers the query by it.
pub(crate) fn make_for<L: Ledger>(
    alloc: Global,
    world: &World,
    ask: &QueryAsk,
    shape: Shape,
    now: u64,
    steps: &mut Steps<L>,
) -> Result<Change, WorldFault>
    ensures course { IfSome (answer_view result) (λ course. course ≡ ask_course world.now now ask.now (MustMake (shape_view shape))) }
    ensures reads { IfOk result (λ change. ReadsWhatItCounts (reply_view change.reply) steps.old steps.new) }
{
    let Made {
        world: left,
        rows,
        name,
    } = world.make(alloc, shape, now)?;
    let reply = Snapshot::of(left.parts()).ask_named(alloc, ask, &name, steps)?;
    Ok(Change {
        world: left,
        rows,
        reply,
    })
}
