//! Jobs: fronts, which serve doors, and pumps, which make batches.
ghost use Rattle.std.specs.Prelude.{◌≡◌, IfOk};

use http_parts::Routes;
use raven_base::NoMemory;
use raven_desk::Live;
use raven_ports::{Clock, Keeper};
use raven_turn::{Pass, Turn};
use raven_value::Text;
use serve_ports::{Door, Gate};
use std::alloc::Global;
use std::marker::Model;
use std::sync::Arc;

/// What all jobs of a server have.
#[derive(Drop)]
pub(crate) struct Site<'a, C, G> {
    pub(crate) alloc: Global,
    pub(crate) clock: Arc<C>,
    pub(crate) gate: Arc<G>,
    pub(crate) name: Text,
    /// Made once for all jobs.
    pub(crate) routes: &'a Routes,
}

impl<'a, C: Drop, G: Drop> Site<'a, C, G> {
    /// The same for one more job.
    pub(crate) fn share(&self) -> Result<Site<'a, C, G>, NoMemory>
        ensures clock { IfOk result (λ site. site.clock.value ≡ self.now.clock.value) }
        ensures name { IfOk result (λ site. site.name ≡ self.now.name) }
    {
        Ok(Site {
            alloc: self.alloc,
            clock: self.clock.clone()?,
            gate: self.gate.clone()?,
            name: self.name.clone()?,
            routes: self.routes,
        })
    }
}

/// A job: a front with its door, or a pump, which has none.
#[derive(Drop)]
pub(crate) struct Work<'a, K: Keeper, C: Clock, G: Gate, D: Door> {
    pub(crate) turn: &'a Turn<Live<K>>,
    pub(crate) pass: Pass<Live<K>>,
    pub(crate) site: Site<'a, C, G>,
    pub(crate) door: Option<D>,
    /// With which index a pump begins each round, so that pumps are not all at the same one.
    pub(crate) begin: u32,
}

impl<'a, K: Keeper, C: Clock, G: Gate, D: Door> Model for Work<'a, K, C, G, D> {
    ghost use Rattle.std.specs.Prelude.{◌≡◌, option_map};
    ghost use Rattle.raven_serve.specs.Works.{Post};
    ghost use Rattle.raven_serve.specs.Codes.{post_code};

    ghost Value = { Post };

    ghost coded = { post_code };

    ghost view = { λ w. record { pass = w.pass; clock = C.moment w.site.clock.value; name = w.site.name; door = option_map D.state w.door } };

    ghost invariant = { λ w. w.pass.turn ≡ w.turn.now.turn };
}

/// What a job leaves: its pass, and the door of a front, with whether it failed.
#[derive(Drop)]
pub(crate) struct Outcome<K: Keeper, D: Door> {
    pub(crate) pass: Pass<Live<K>>,
    pub(crate) door: Option<D>,
    pub(crate) failed: bool,
}

impl<K: Keeper, D: Door> Model for Outcome<K, D> {
    ghost use Rattle.std.specs.Prelude.{option_map};
    ghost use Rattle.raven_serve.specs.Works.{Report};
    ghost use Rattle.raven_serve.specs.Codes.{report_code};

    ghost Value = { Report };

    ghost coded = { report_code };

    ghost view = { λ o. record { pass = o.pass; door = option_map D.state o.door; failed = o.failed } };
}
