//! A desk over a turn.
ghost use Rattle.std.specs.Prelude.{◌≡◌};
ghost use Rattle.turn_desk.specs.Seated.{seated};

use crate::reads::{changes_nothing, read, read_query};
use crate::writes::write;
use raven_base::NoMemory;
use raven_desk::{Desk, Live, Shot};
use raven_ports::{Clock, Keeper};
use raven_request::Request;
use raven_turn::{Pass, Turn};
use raven_world::Reply;
use rql_plan::QueryAsk;
use serve_ports::{Gate, Point};
use std::alloc::Global;
use std::marker::Model;
use std::sync::{Arc, Wait};
use std::thread::Threads;

/// A desk over the value that all threads share, for the thread that has this pass of its turn. A request that changes nothing is answered on a look,
/// after its hold, and each other one in one hold. Between two looks of a query that waits, the gate is told and the clock naps.
pub struct TurnDesk<'a, K: Keeper, C: Clock, G: Gate> {
    turn: &'a Turn<Live<K>>,
    pass: Pass<Live<K>>,
    clock: Arc<C>,
    gate: Arc<G>,
}

// Opaque drop: see raven_base.
impl<'a, K: Keeper + Drop, C: Clock + Drop, G: Gate + Drop> Drop for TurnDesk<'a, K, C, G> {
    fn drop(self) {
        let TurnDesk {
            turn: _turn,
            pass: _pass,
            clock: _clock,
            gate: _gate,
        } = self;
    }
}

impl<'a, K: Keeper, C: Clock, G: Gate> Model for TurnDesk<'a, K, C, G> {
    ghost use Rattle.std.specs.Prelude.{◌≡◌};
    ghost use Rattle.turn_desk.specs.Seated.{Seated, seated, seated_code};

    ghost Value = { Seated };

    ghost coded = { seated_code };

    ghost view = { λ d. seated d.pass (C.moment d.clock.value) };

    ghost invariant = { λ d. d.pass.turn ≡ d.turn.now.turn };
}

impl<'a, K: Keeper, C: Clock, G: Gate> TurnDesk<'a, K, C, G> {
    /// A desk with this pass of the turn.
    pub fn new(
        turn: &'a Turn<Live<K>>,
        pass: Pass<Live<K>>,
        clock: Arc<C>,
        gate: Arc<G>,
    ) -> TurnDesk<'a, K, C, G>
        requires { pass.turn ≡ turn.now.turn }
        ensures { result ≡ seated pass (C.moment clock.value) }
    {
        TurnDesk {
            turn,
            pass,
            clock,
            gate,
        }
    }
}

impl<'a, K: Keeper, C: Clock + Drop, G: Gate + Drop> TurnDesk<'a, K, C, G> {
    /// Its pass.
    pub fn finish(self) -> Pass<Live<K>>
        ensures { result ≡ self.entry.pass }
    {
        let TurnDesk {
            turn: _turn,
            pass,
            clock: _clock,
            gate: _gate,
        } = self;
        pass
    }
}

impl<'a, K: Keeper, C: Clock, G: Gate, R: Threads + Wait + Sync> Desk<R> for TurnDesk<'a, K, C, G> {
    ghost use Rattle.std.specs.Prelude.{◌≡◌, refl};
    ghost use Rattle.std.proofs.Common.{◌∙◌};
    ghost use Rattle.spec_desk.specs.Lived.{Follows};
    ghost use Rattle.spec_desk.proofs.Later.{Follows-itself};
    ghost use Rattle.turn_desk.specs.Seated.{stands_seated};

    ghost link = { Follows };

    ghost standing = { stands_seated };

    ghost same = { λ d e. (e.pass.turn ≡ d.pass.turn) × (e.pass.shares ≡ d.pass.shares) };

    fn do_once(
        &mut self,
        rt: &R,
        alloc: Global,
        request: Request,
    ) -> Result<(Shot, Reply), NoMemory> {
        if changes_nothing(&request) {
            return read(rt, alloc, self.turn, &mut self.pass, &*self.clock, request);
        }
        write(rt, alloc, self.turn, &mut self.pass, &*self.clock, request)
    }

    fn look_once(
        &mut self,
        rt: &R,
        alloc: Global,
        ask: &QueryAsk,
    ) -> Result<(Shot, Reply), NoMemory> {
        read_query(rt, alloc, self.turn, &mut self.pass, &*self.clock, ask)
    }

    fn pause(&self) {
        self.gate.at(Point::AfterLook);
        self.clock.nap();
    }

    fn catch_up(&mut self, _rt: &R, _alloc: Global) -> Result<(), NoMemory> {
        Ok(())
    }

    ghost link_same = { Follows-itself };

    ghost link_later = { λ x y a. a };

    ghost same_here = { λ x. (refl, refl) };

    ghost same_on = { λ x y z a b. (b.0 ∙ a.0, b.1 ∙ a.1) };
}
