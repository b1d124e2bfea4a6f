//! What a desk does in one hold of the turn.

use raven_base::NoMemory;
use raven_desk::{Live, Shot};
use raven_ports::{Clock, Keeper};
use raven_request::Request;
use raven_turn::Act;
use raven_world::Reply;
use rql_plan::QueryAsk;
use std::alloc::Global;
use std::sync::Wait;
use std::thread::Threads;

/// The step of a request. It returns the reply, and a shot of the value that it found: with it the old world is dropped after the hold. The shot is taken
/// first, so that no memory is needed once the keeper was asked. The clock is read in the hold: unless it goes back, a later step has no earlier moment.
pub(crate) struct DoOnce<'a, T, C> {
    pub(crate) rt: &'a T,
    pub(crate) alloc: Global,
    pub(crate) clock: &'a C,
    pub(crate) request: Request,
}

impl<'a, T: Threads + Sync, C: Clock, K: Keeper> Act<Live<K>> for DoOnce<'a, T, C> {
    ghost use Rattle.std.specs.Prelude.{◌≡◌, IfOk, OnErr};
    ghost use Rattle.std.specs.Thread.{IsSync};
    ghost use Rattle.spec_server.specs.Requests.{Do};
    ghost use Rattle.spec_server.specs.WellFormed.{IsWellFormed};
    ghost use Rattle.raven_request.specs.RequestView.{request_view};
    ghost use Rattle.raven_reply.specs.ReplyView.{reply_view};
    ghost use Rattle.spec_desk.specs.Lacking.{LacksAt};
    ghost use Rattle.turn_desk.specs.Holding.{HasStepped};

    type Out = Result<(Shot, Reply), NoMemory>;

    ghost needs = { λ act x. IsSync T.row × IsWellFormed (Do (request_view act.request)) };

    ghost does = { λ act x out y. IfOk out (λ o. HasStepped (C.moment act.clock.now) (request_view act.request) x o.0 (reply_view o.1) y)
        × OnErr out (LacksAt (C.moment act.clock.now) (request_view act.request) x y) };

    fn act<R: Wait>(self, _rt: &R, value: &mut Live<K>) -> Result<(Shot, Reply), NoMemory> {
        let DoOnce {
            rt,
            alloc,
            clock,
            request,
        } = self;
        let shot = value.shot()?;
        let now = clock.now();
        let reply = value.step(rt, alloc, now, request)?;
        Ok((shot, reply))
    }

    ghost stable = { λ act x y a b. a };
}

/// The step of a query, which is lent.
pub(crate) struct AskOnce<'a, C> {
    pub(crate) alloc: Global,
    pub(crate) clock: &'a C,
    pub(crate) ask: &'a QueryAsk,
}

impl<'a, C: Clock, K: Keeper> Act<Live<K>> for AskOnce<'a, C> {
    ghost use Rattle.std.specs.Prelude.{◌≡◌, IfOk, OnErr};
    ghost use Rattle.spec_server.specs.Requests.{Ask, Do};
    ghost use Rattle.spec_server.specs.WellFormed.{IsWellFormed};
    ghost use Rattle.raven_reply.specs.ReplyView.{reply_view};
    ghost use Rattle.spec_desk.specs.Lacking.{LacksAt};
    ghost use Rattle.turn_desk.specs.Holding.{HasStepped};

    type Out = Result<(Shot, Reply), NoMemory>;

    ghost needs = { λ act x. IsWellFormed (Do (Ask act.ask.now)) };

    ghost does = { λ act x out y. IfOk out (λ o. HasStepped (C.moment act.clock.now) (Ask act.ask.now) x o.0 (reply_view o.1) y)
        × OnErr out (LacksAt (C.moment act.clock.now) (Ask act.ask.now) x y) };

    fn act<R: Wait>(self, _rt: &R, value: &mut Live<K>) -> Result<(Shot, Reply), NoMemory> {
        let AskOnce { alloc, clock, ask } = self;
        let shot = value.shot()?;
        let now = clock.now();
        let reply = value.ask(alloc, now, ask)?;
        Ok((shot, reply))
    }

    ghost stable = { λ act x y a b. a };
}
