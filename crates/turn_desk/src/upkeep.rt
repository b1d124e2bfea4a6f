//! What a pump asks over a turn beside its batches.
ghost use Rattle.std.specs.Prelude.{◌≡◌, IfOk, OnErr};
ghost use Rattle.spec_server.specs.Requests.{Clean, Tidy};
ghost use Rattle.spec_desk.specs.Lacking.{LacksOnce};
ghost use Rattle.spec_desk.specs.Lived.{Follows};
ghost use Rattle.spec_desk.specs.Receipts.{Onward};
ghost use Rattle.raven_reply.specs.ReplyView.{reply_view};
ghost use Rattle.turn_desk.specs.Seated.{stands_at};
ghost use Rattle.turn_desk.specs.Upkeep.{Cleans, Tidies};

use crate::writes::write;
use raven_base::NoMemory;
use raven_desk::Live;
use raven_ports::{Clock, Keeper};
use raven_request::Request;
use raven_turn::{Pass, Turn};
use raven_world::Reply;
use std::alloc::Global;
use std::sync::Wait;
use std::thread::Threads;

/// One hold with a Tidy: each replacement that is not stale takes its name, in order of names, and then the automatic indexes go that are no longer of use.
/// If memory runs out in the keeper, the changes before stand.
pub fn tidy<K: Keeper, C: Clock, R: Threads + Wait + Sync>(
    rt: &R,
    alloc: Global,
    turn: &Turn<Live<K>>,
    pass: &mut Pass<Live<K>>,
    clock: &C,
) -> Result<Reply, NoMemory>
    requires { pass.old.turn ≡ turn.now.turn }
    ensures tidied { let at = stands_at (C.moment clock.now) in IfOk result (λ reply. Tidies (at pass.old) (reply_view reply) (at pass.new)) }
    ensures lacked { let at = stands_at (C.moment clock.now) in OnErr result (LacksOnce Follows (at pass.old) Tidy (at pass.new)) }
    ensures onward { Onward pass.old.seen pass.new.seen }
    ensures same { (pass.new.turn ≡ pass.old.turn) × (pass.new.shares ≡ pass.old.shares) }
{
    let (_found, reply) = write(rt, alloc, turn, pass, clock, Request::Tidy)?;
    Ok(reply)
}

/// One hold with a CLEAN: the tombstones go that no index has to read any more. If memory runs out, nothing was changed.
pub fn clean<K: Keeper, C: Clock, R: Threads + Wait + Sync>(
    rt: &R,
    alloc: Global,
    turn: &Turn<Live<K>>,
    pass: &mut Pass<Live<K>>,
    clock: &C,
) -> Result<Reply, NoMemory>
    requires { pass.old.turn ≡ turn.now.turn }
    ensures cleaned { let at = stands_at (C.moment clock.now) in IfOk result (λ reply. Cleans (at pass.old) (reply_view reply) (at pass.new)) }
    ensures lacked { let at = stands_at (C.moment clock.now) in OnErr result (LacksOnce Follows (at pass.old) Clean (at pass.new)) }
    ensures onward { Onward pass.old.seen pass.new.seen }
    ensures same { (pass.new.turn ≡ pass.old.turn) × (pass.new.shares ≡ pass.old.shares) }
{
    let (_found, reply) = write(rt, alloc, turn, pass, clock, Request::Clean)?;
    Ok(reply)
}
