//! Requests, made one after another.
ghost use Rattle.std.specs.Prelude.{◌≡◌, ◌+◌, ◌<◌, ◌==◌, ◌^◌, [], ◌∷◌, IfErr, OnOk, not};
ghost use Rattle.std.specs.List.{list_any};
ghost use Rattle.raven_measure.specs.Doing.{Does, Stops};
ghost use Rattle.raven_reply.specs.ReplyView.{reply_view};
ghost use Rattle.raven_request.specs.RequestView.{request_view};
ghost use Rattle.spec_desk.specs.Keepers.{Keeps};
ghost use Rattle.spec_desk.specs.Lived.{machine_in};
ghost use Rattle.spec_measure.specs.Summary.{is_moving as spec_is_moving};
ghost use Rattle.raven_measure.specs.Defining.{MayBeMade};
ghost use Rattle.spec_store.specs.Store.{last};

use raven_base::NoMemory;
use raven_desk::{Course, Live, Settled};
use raven_ports::{Clock, Keeper};
use raven_request::Request;
use raven_world::{Pumping, Reply};
use std::alloc::Global;
use std::marker::Model;
use std::thread::Threads;

/// Why a measurement stops.
#[derive(Clone, Copy)]
pub enum Stop {
    /// The keeper did not take the rows of a request.
    Kept,

    NoMemory,
}

impl From<NoMemory> for Stop {
    ghost use Rattle.std.specs.Prelude.{◌≡◌};
    ghost use Rattle.raven_measure.specs.declared.making.Stop.TheVariants.{NoMemory as OutOfMemory};

    ghost from_gives = { λ _ stop. stop ≡ OutOfMemory };

    fn from(_lack: NoMemory) -> Stop {
        Stop::NoMemory
    }
}

/// A database, and how many batches have moved the etag of its index.
pub struct Measured<K: Keeper> {
    live: Live<K>,
    batches: u64,
}

impl<K: Keeper> Model for Measured<K> {
    ghost use Rattle.raven_measure.specs.Doing.{State, state_code};

    ghost Value = { State };

    ghost coded = { state_code };

    ghost view = { λ a. record { live = a.live; moved = a.batches } };
}

// Whether one of these batches has moved the etag of its index.
fn has_moved(pumped: &[Pumping]) -> bool
    ensures { result ≡ list_any (λ p. not (p.from == p.to)) pumped.now }
{
    for one in pumped {
        if one.from != one.to {
            return true;
        }
    }
    false
}

// Whether a batch has moved the etag of an index.
fn is_moving(reply: &Reply) -> bool
    ensures { result ≡ spec_is_moving (reply_view reply.now) }
{
    match reply {
        Reply::Pumped { pumped } => has_moved(pumped.as_slice()),
        _ => false,
    }
}

impl<K: Keeper> Measured<K> {
    /// A database of which no batch was made.
    pub fn of(live: Live<K>) -> Measured<K>
        ensures { result ≡ record { live = live; moved = 0 } }
    {
        Measured { live, batches: 0 }
    }

    /// The database.
    pub fn live(&self) -> &Live<K>
        ensures { result.now ≡ self.now.live }
    {
        &self.live
    }

    /// How many batches have moved the etag of the index.
    pub fn batches(&self) -> u64
        ensures { result ≡ self.now.moved }
    {
        self.batches
    }

    /// The last etag of the database; 0 if it has no rows.
    pub fn last(&self) -> u64
        ensures { result ≡ last self.now.live.world.store }
    {
        self.live.world().parts().store.last()
    }

    /// The keeper of the database.
    pub fn into_keeper(self) -> K
        ensures keeper { K.state result ≡ self.live.keeper }
        ensures keeps { Keeps (K.state result).held (machine_in self.live) }
    {
        let Measured {
            live,
            batches: _batches,
        } = self;
        live.into_keeper()
    }

    /// Makes a request at the moment that the clock gives.
    pub fn make<R: Threads + Sync, C: Clock>(
        &mut self,
        rt: &R,
        alloc: Global,
        clock: &C,
        request: Request,
    ) -> Result<(), Stop>
        requires formed { MayBeMade (request_view request) }
        requires room { self.old.moved + 1 < 2 ^ 64 }
        ensures done { OnOk result (Does (C.moment clock.now) self.old (request_view request ∷ []) self.new) }
        ensures stopped { IfErr result (Stops (C.moment clock.now) self.old (request_view request ∷ []) self.new) }
    {
        let Course { reply, changes } = self.live.course(rt, alloc, clock.now(), request)?;
        match self.live.settle(changes)? {
            Settled::All => {
                self.batches += u64::from(is_moving(&reply));
                Ok(())
            }
            Settled::Stopped { .. } => Err(Stop::Kept),
        }
    }
}
