//! What requests do that define indexes.
ghost use Rattle.std.specs.Prelude.{◌≡◌, ◌++◌, ◌∷◌, [], IfOk, IfSome, OnOk};
ghost use Rattle.spec_server.specs.Requests.{Define};
ghost use Rattle.spec_server.specs.Machine.{course_of as spec_course_of};
ghost use Rattle.raven_request.specs.RequestView.{multi_view};
ghost use Rattle.raven_world.specs.WorldView.{answer_view};
ghost use Rattle.raven_desk.specs.CourseView.{change_with, course_view};

use crate::course::{Course, Pending, make_pending};
use crate::tidying::world_after;
use index_lang::TextDefinition;
use raven_base::{NoMemory, Sequence};
use raven_reply::index_reply;
use raven_value::Name;
use raven_world::{Change, Made, Reply, World, WorldFault};
use std::alloc::Global;

/// Defines an index by name, and replies with its name.
pub(crate) fn define(
    alloc: Global,
    world: &World,
    definition: TextDefinition,
    now: u64,
) -> Result<Change, WorldFault>
    ensures { IfSome (answer_view result) (λ course. course ≡ spec_course_of world.now now (Define definition.name definition.definition)) }
{
    let Made { world, rows, name } = world.define(alloc, definition, now)?;
    let reply = index_reply(&name)?;
    Ok(Change { world, rows, reply })
}

// Adds what was made to these changes and names.
fn add_made(
    alloc: Global,
    changes: &mut Vec<Pending>,
    names: &mut Sequence<Name>,
    made: Made,
) -> Result<(), NoMemory>
    ensures changes { OnOk result (changes.new.items ≡ change_with changes.old.items made) }
    ensures names { OnOk result (names.new ≡ names.old ++ made.name ∷ []) }
{
    let Made { world, rows, name } = made;
    changes.push(make_pending(alloc, rows, world)?)?;
    names.push(name)?;
    Ok(())
}

/// What a MULTI does to the world at this moment: each part is defined in the world that those before it leave, up to the first that is refused.
pub(crate) fn define_parts(
    alloc: Global,
    world: &World,
    parts: Vec<TextDefinition>,
    now: u64,
) -> Result<Course, NoMemory>
    ensures { IfOk result (λ course. course_view course ≡ spec_course_of world.now now (multi_view parts.items)) }
{
    let mut changes = Vec::new(alloc);
    let mut names = Sequence::new(alloc);
    for part in parts {
        match world_after(world, &changes).define(alloc, part, now) {
            Ok(made) => add_made(alloc, &mut changes, &mut names, made)?,
            Err(WorldFault::Refused(reply)) => return Ok(Course { reply, changes }),
            Err(WorldFault::NoMemory) => return Err(NoMemory),
        }
    }
    let reply = Reply::Defined { names };
    Ok(Course { reply, changes })
}
