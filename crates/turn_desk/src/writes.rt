//! Requests that are answered in one hold of the turn.
ghost use Rattle.std.specs.Prelude.{◌≡◌, IfOk, OnErr};
ghost use Rattle.spec_server.specs.Requests.{Ask, Do};
ghost use Rattle.spec_server.specs.WellFormed.{IsWellFormed};
ghost use Rattle.raven_reply.specs.ReplyView.{reply_view};
ghost use Rattle.raven_request.specs.RequestView.{request_view};
ghost use Rattle.spec_desk.specs.Lacking.{LacksOnce};
ghost use Rattle.spec_desk.specs.Lived.{Follows};
ghost use Rattle.spec_desk.specs.Receipts.{LooksOnce, Onward};
ghost use Rattle.turn_desk.specs.Seated.{stands_at};

use crate::acts::{AskOnce, DoOnce};
use raven_base::NoMemory;
use raven_desk::{Live, Shot};
use raven_ports::{Clock, Keeper};
use raven_request::Request;
use raven_turn::{Pass, Turn};
use raven_world::Reply;
use rql_plan::QueryAsk;
use std::alloc::Global;
use std::sync::Wait;
use std::thread::Threads;

/// One hold with the step of the request. It returns the reply, and what the hold found. If memory runs out, nothing was changed, unless the request makes
/// several changes: then those before stand.
pub(crate) fn write<K: Keeper, C: Clock, R: Threads + Wait + Sync>(
    rt: &R,
    alloc: Global,
    turn: &Turn<Live<K>>,
    pass: &mut Pass<Live<K>>,
    clock: &C,
    request: Request,
) -> Result<(Shot, Reply), NoMemory>
    requires own { pass.old.turn ≡ turn.now.turn }
    requires formed { IsWellFormed (Do (request_view request)) }
    ensures looked { let at = stands_at (C.moment clock.now) in IfOk result (λ o. LooksOnce Follows (at pass.old) (request_view request) o.0 (reply_view o.1) (at pass.new)) }
    ensures lacked { let at = stands_at (C.moment clock.now) in OnErr result (LacksOnce Follows (at pass.old) (request_view request) (at pass.new)) }
    ensures onward { Onward pass.old.seen pass.new.seen }
    ensures same { (pass.new.turn ≡ pass.old.turn) × (pass.new.shares ≡ pass.old.shares) }
{
    turn.with(
        rt,
        pass,
        DoOnce {
            rt,
            alloc,
            clock,
            request,
        },
    )
}

/// One hold with the step of the query.
pub(crate) fn write_query<K: Keeper, C: Clock, R: Wait>(
    rt: &R,
    alloc: Global,
    turn: &Turn<Live<K>>,
    pass: &mut Pass<Live<K>>,
    clock: &C,
    ask: &QueryAsk,
) -> Result<(Shot, Reply), NoMemory>
    requires own { pass.old.turn ≡ turn.now.turn }
    requires formed { IsWellFormed (Do (Ask ask.now)) }
    ensures looked { let at = stands_at (C.moment clock.now) in IfOk result (λ o. LooksOnce Follows (at pass.old) (Ask ask.now) o.0 (reply_view o.1) (at pass.new)) }
    ensures lacked { let at = stands_at (C.moment clock.now) in OnErr result (LacksOnce Follows (at pass.old) (Ask ask.now) (at pass.new)) }
    ensures onward { Onward pass.old.seen pass.new.seen }
    ensures same { (pass.new.turn ≡ pass.old.turn) × (pass.new.shares ≡ pass.old.shares) }
{
    turn.with(rt, pass, AskOnce { alloc, clock, ask })
}
