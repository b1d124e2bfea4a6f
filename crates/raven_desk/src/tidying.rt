//! What a TIDY does: one change for each replacement that takes its name, and one for the automatic indexes that go.
ghost use Rattle.std.specs.Prelude.{◌≡◌, [], IfOk, OnOk};
ghost use Rattle.spec_server.specs.Requests.{Tidy};
ghost use Rattle.spec_server.specs.Indexing.{retire, tidy as spec_tidy};
ghost use Rattle.spec_server.specs.Machine.{course_of as spec_course_of};
ghost use Rattle.spec_desk.specs.Stepped.{world_after as spec_world_after};
ghost use Rattle.raven_desk.specs.CourseView.{after_changes, changes_with, course_view, names_with};

use crate::course::{Course, Pending, make_pending};
use raven_base::NoMemory;
use raven_value::Name;
use raven_world::{Change, Taken, World, WorldFault};
use std::alloc::Global;

/// The world after these changes.
pub(crate) fn world_after<'a>(world: &'a World, changes: &'a [Pending]) -> &'a World
    ensures { result.now ≡ spec_world_after world.now changes.now }
{
    match changes.last() {
        Some(change) => change.world(),
        None => world,
    }
}

// These changes, and then one that lets go the automatic indexes that are no longer needed. The reply has these names as those that were switched.
fn retired(
    alloc: Global,
    world: &World,
    changes: Vec<Pending>,
    switched: Vec<Name>,
    now: u64,
) -> Result<Course, NoMemory>
    ensures { IfOk result (λ course. course_view course ≡ after_changes changes.items (retire (spec_world_after world.now changes.items) now switched.items)) }
{
    let mut changes = changes;
    match world_after(world, &changes).retire(alloc, switched, now) {
        Ok(Change { world, rows, reply }) => {
            changes.push(make_pending(alloc, rows, world)?)?;
            Ok(Course { reply, changes })
        }
        Err(WorldFault::Refused(reply)) => Ok(Course { reply, changes }),
        Err(WorldFault::NoMemory) => Err(NoMemory),
    }
}

// Adds a switch, if there is one, to these changes and names.
fn add_switch(
    alloc: Global,
    changes: &mut Vec<Pending>,
    switched: &mut Vec<Name>,
    tried: Option<Taken>,
) -> Result<(), NoMemory>
    ensures changes { OnOk result (changes.new.items ≡ changes_with changes.old.items tried) }
    ensures names { OnOk result (switched.new.items ≡ names_with switched.old.items tried) }
{
    if let Some(Taken { world, rows, name }) = tried {
        changes.push(make_pending(alloc, rows, world)?)?;
        switched.push(name)?;
    }
    Ok(())
}

// The replacement of each of these names is tried on the world that the switches before it leave.
fn tidy(alloc: Global, world: &World, names: &[Name], now: u64) -> Result<Course, NoMemory>
    ensures { IfOk result (λ course. course_view course ≡ spec_tidy now names.now world.now []) }
{
    let mut changes = Vec::new(alloc);
    let mut switched = Vec::new(alloc);
    for name in names {
        match world_after(world, &changes).try_switch(alloc, name, now) {
            Ok(tried) => add_switch(alloc, &mut changes, &mut switched, tried)?,
            Err(WorldFault::Refused(reply)) => return Ok(Course { reply, changes }),
            Err(WorldFault::NoMemory) => return Err(NoMemory),
        }
    }
    retired(alloc, world, changes, switched, now)
}

/// What a TIDY does to the world at this moment. A replacement that may not take its name is passed over.
pub(crate) fn tidied(alloc: Global, world: &World, now: u64) -> Result<Course, NoMemory>
    ensures { IfOk result (λ course. course_view course ≡ spec_course_of world.now now Tidy) }
{
    let names = world.replaced(alloc)?;
    tidy(alloc, world, &names, now)
}
