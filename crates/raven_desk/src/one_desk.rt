//! A desk of one caller.
ghost use Rattle.std.specs.Prelude.{◌≡◌, ◌≤◌};
ghost use Rattle.raven_desk.specs.Desks.{alone};

use crate::desk::Desk;
use crate::live::Live;
use crate::shot::Shot;
use raven_base::NoMemory;
use raven_ports::{Clock, Keeper};
use raven_request::Request;
use raven_world::Reply;
use rql_plan::QueryAsk;
use std::alloc::Global;
use std::marker::Model;
use std::sync::Arc;
use std::thread::Threads;

/// The live value of one caller. After each request each index catches up by one batch of at most `pump` rows, unless `pump` is 0, and then a Tidy is
/// made. What these two reply is dropped.
pub struct OneDesk<K: Keeper, C: Clock> {
    live: Live<K>,
    clock: Arc<C>,
    pump: u32,
}

// Opaque drop: see raven_base.
impl<K: Keeper + Drop, C: Clock + Drop> Drop for OneDesk<K, C> {
    fn drop(self) {
        let OneDesk {
            live: _live,
            clock: _clock,
            pump: _pump,
        } = self;
    }
}

impl<K: Keeper, C: Clock> Model for OneDesk<K, C> {
    ghost use Rattle.raven_desk.specs.Desks.{Alone, alone, alone_code};

    ghost Value = { Alone };

    ghost coded = { alone_code };

    ghost view = { λ d. alone d.live (C.moment d.clock.value) d.pump };
}

impl<K: Keeper, C: Clock> OneDesk<K, C> {
    /// A desk over this value.
    pub fn new(live: Live<K>, clock: Arc<C>, pump: u32) -> OneDesk<K, C>
        requires { pump ≤ 65536 }
        ensures { result ≡ alone live (C.moment clock.value) pump }
    {
        OneDesk { live, clock, pump }
    }
}

impl<K: Keeper, C: Clock + Drop> OneDesk<K, C> {
    /// Its value.
    pub fn finish(self) -> Live<K>
        ensures { result ≡ self.live }
    {
        let OneDesk {
            live,
            clock: _clock,
            pump: _pump,
        } = self;
        live
    }
}

impl<K: Keeper, C: Clock, R: Threads + Sync> Desk<R> for OneDesk<K, C> {
    ghost use Rattle.std.specs.Prelude.{◌≡◌, refl};
    ghost use Rattle.spec_desk.proofs.Later.{same-follows};
    ghost use Rattle.raven_desk.specs.Desks.{stands_alone};

    ghost link = { λ x y. y ≡ x };

    ghost standing = { stands_alone };

    ghost same = { λ d e. Unit {0} };

    fn do_once(
        &mut self,
        rt: &R,
        alloc: Global,
        request: Request,
    ) -> Result<(Shot, Reply), NoMemory> {
        let shot = self.live.shot()?;
        let now = self.clock.now();
        let reply = self.live.step(rt, alloc, now, request)?;
        Ok((shot, reply))
    }

    fn look_once(
        &mut self,
        _rt: &R,
        alloc: Global,
        ask: &QueryAsk,
    ) -> Result<(Shot, Reply), NoMemory> {
        let shot = self.live.shot()?;
        let now = self.clock.now();
        let reply = self.live.ask(alloc, now, ask)?;
        Ok((shot, reply))
    }

    fn pause(&self) {
        self.clock.nap();
    }

    fn catch_up(&mut self, rt: &R, alloc: Global) -> Result<(), NoMemory> {
        if self.pump == 0 {
            return Ok(());
        }
        let now = self.clock.now();
        let max = self.pump;
        let request = Request::Pump { max, index: None };
        self.live.step(rt, alloc, now, request)?;
        let later = self.clock.now();
        self.live.step(rt, alloc, later, Request::Tidy)?;
        Ok(())
    }

    ghost link_same = { λ x. refl };

    ghost link_later = { same-follows };

    ghost same_here = { λ x. tt };

    ghost same_on = { λ x y z a b. tt };
}
