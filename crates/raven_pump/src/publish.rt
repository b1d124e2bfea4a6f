//! The hold in which a batch is published.
ghost use Rattle.std.specs.Prelude.{◌≡◌};
ghost use Rattle.raven_reply.specs.ReplyView.{reply_view};
ghost use Rattle.raven_pump.specs.Turning.{told_by};

use crate::turned::Turned;
use index_version::IndexVersion;
use raven_base::NoMemory;
use raven_desk::{Course, Live, Shot};
use raven_ports::Keeper;
use raven_turn::Act;
use raven_world::Reply;
use std::alloc::Global;
use std::sync::{Arc, Wait};

// What the reply to a publication says of the index.
fn told(reply: &Reply) -> Option<Turned>
    ensures { result ≡ told_by (reply_view reply.now) }
{
    match reply {
        Reply::Published { from, to, .. } => Some(Turned::Moved {
            from: *from,
            to: *to,
        }),
        Reply::Gone { .. } => Some(Turned::Gone),
        Reply::Passed { now } => Some(Turned::Passed { now: *now }),
        Reply::Cleaned { upto } => Some(Turned::Cleaned { upto: *upto }),
        _ => None,
    }
}

/// Puts a batch, which was read in an earlier world, in the place of the version of its index. It returns what came of it, and a shot of the value that it
/// found: with it the old world is dropped after the hold.
pub(crate) struct Publish {
    pub(crate) alloc: Global,
    pub(crate) number: u64,
    pub(crate) version: Arc<IndexVersion>,
}

impl<K: Keeper> Act<Live<K>> for Publish {
    ghost use Rattle.std.specs.Prelude.{◌≡◌, IfOk, OnErr};
    ghost use Rattle.spec_desk.specs.Lived.{etags};
    ghost use Rattle.spec_desk.specs.Stepped.{Stays};
    ghost use Rattle.spec_desk.proofs.Later.{Follows-then};
    ghost use Rattle.raven_pump.specs.Turning.{Publishes, WaitsSince};

    type Out = Result<(Shot, Turned), NoMemory>;

    ghost needs = { λ act x. WaitsSince act.number act.version.value x };

    ghost does = { λ act x out y. IfOk out (λ o. Publishes act.number act.version.value.version x o.1 y) × (etags y ≡ etags x) × OnErr out (Stays x y) };

    fn act<R: Wait>(self, _rt: &R, value: &mut Live<K>) -> Result<(Shot, Turned), NoMemory> {
        let Publish {
            alloc,
            number,
            version,
        } = self;
        let shot = value.shot()?;
        let course = value.publication(alloc, number, version)?;
        let Course { reply, changes } = course;
        let Some(turned) = told(&reply) else {
            unreachable!()
        };
        value.settle(changes)?;
        Ok((shot, turned))
    }

    ghost stable = { λ act x y a b. (a.0, a.1, Follows-then a.0 x y a.2 b) };
}
