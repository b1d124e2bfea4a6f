//! Publishing a batch.
ghost use Rattle.std.specs.Prelude.{◌≡◌, IfOk, Some};
ghost use Rattle.spec_server.specs.Workers.{published_reply};
ghost use Rattle.spec_server.specs.Sound.{IsHeld};
ghost use Rattle.raven_reply.specs.ReplyView.{reply_view};
ghost use Rattle.spec_desk.specs.Publishing.{publication as spec_publication};
ghost use Rattle.spec_desk.specs.Stepped.{MayMake};
ghost use Rattle.raven_world.specs.Publishing.{MayPublish};
ghost use Rattle.raven_desk.specs.CourseView.{course_view};

use crate::course::{Course, make_pending, unchanged};
use crate::live::Live;
use index_version::IndexVersion;
use raven_base::NoMemory;
use raven_ports::Keeper;
use raven_value::Rows;
use raven_world::{PublishRefusal, Reply, World};
use side_by_side::Slot;
use std::alloc::Global;
use std::sync::Arc;

// The reply if the version takes the place of that of the index.
fn reply_if_published(slot: &Slot, version: &IndexVersion) -> Result<Reply, NoMemory>
    ensures { IfOk result (λ reply. reply_view reply ≡ published_reply version.now.version (Some slot.now)) }
{
    Ok(Reply::Published {
        from: slot.version.etag(),
        index: slot.name.clone()?,
        to: version.etag(),
    })
}

// What it does to a world to publish the version of the index of this number.
fn publication_of(
    alloc: Global,
    world: &World,
    number: u64,
    version: Arc<IndexVersion>,
) -> Result<Course, NoMemory>
    requires { MayPublish world.now number version.value }
    ensures { IfOk result (λ course. course_view course ≡ spec_publication world.now number version.value.version) }
{
    let Some(slot) = world.slot(number) else {
        return Ok(unchanged(alloc, Reply::Gone { number }));
    };
    let reply = reply_if_published(slot, &version)?;
    match world.publish(alloc, number, version) {
        Ok(world) => {
            let mut changes = Vec::new(alloc);
            changes.push(make_pending(alloc, Rows::new(alloc), world)?)?;
            Ok(Course { reply, changes })
        }
        Err(PublishRefusal::Gone { number }) => Ok(unchanged(alloc, Reply::Gone { number })),
        Err(PublishRefusal::Passed { now }) => Ok(unchanged(alloc, Reply::Passed { now })),
        Err(PublishRefusal::Cleaned { upto }) => Ok(unchanged(alloc, Reply::Cleaned { upto })),
        Err(PublishRefusal::NoMemory) => Err(NoMemory),
    }
}

impl<K: Keeper> Live<K> {
    /// What it does to publish the version of the index of this number, which was read in this world or in an earlier one: one change without
    /// rows, or none if the index is gone or as far already, or if tombstones past the version were cleaned since it was read.
    pub fn publication(
        &self,
        alloc: Global,
        number: u64,
        version: Arc<IndexVersion>,
    ) -> Result<Course, NoMemory>
        requires named { MayPublish self.now.world number version.value }
        requires held { IsHeld self.now.world (record { worker = 0; number = number; version = version.value.version }) }
        ensures course { IfOk result (λ c. course_view c ≡ spec_publication self.now.world number version.value.version) }
        ensures may { IfOk result (λ c. MayMake self.now c.changes.items) }
    {
        publication_of(alloc, self.world.get(), number, version)
    }
}
