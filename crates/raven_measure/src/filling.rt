//! The orders, and what is asked with them.
ghost use Rattle.std.specs.Prelude.{◌≡◌, ◌+◌, ◌*◌, ◌<◌, ◌≤◌, ◌++◌, ◌^◌, IfErr, IfOk, IfSome, OnOk};
ghost use Rattle.spec_store.specs.Commit.{AnyVector};
ghost use Rattle.spec_measure.specs.Draws.{draw, next};
ghost use Rattle.spec_measure.specs.Orders.{order as spec_order, order_id as spec_order_id};
ghost use Rattle.spec_measure.specs.Requests.{batches as spec_batches, deletions, pumping as spec_pumping, requests, requests_with};
ghost use Rattle.spec_server.specs.Requests.{Delete, Put};
ghost use Rattle.raven_request.specs.RequestView.{request_view};
ghost use Rattle.raven_measure.specs.Defining.{MayBeMade, requests_view};
ghost use Rattle.raven_measure.specs.Doing.{Does, Stops};
ghost use Rattle.raven_measure.specs.OptionsView.{options_view};

use crate::definition::index_name;
use crate::draws::Draws;
use crate::making::{Measured, Stop};
use crate::options::Options;
use crate::orders::{order, order_id};
use doc_txn::Expect;
use raven_base::NoMemory;
use raven_ports::{Clock, Keeper};
use raven_request::Request;
use std::alloc::Global;
use std::thread::Threads;

/// One batch of the index.
pub fn pumping(alloc: Global, options: Options) -> Result<Request, NoMemory>
    ensures { IfOk result (λ request. request_view request ≡ spec_pumping (options_view options)) }
{
    let index = Some(index_name(alloc)?);
    Ok(Request::Pump {
        max: options.batch,
        index,
    })
}

// The request that puts the next order, which takes three draws.
fn putting(alloc: Global, number: u64, draws: &mut Draws) -> Result<Request, NoMemory>
    ensures put { IfOk result (λ request. request_view request ≡ Put (spec_order_id number) AnyVector (spec_order (next draws.old) (next (next draws.old)) (next (next (next draws.old))))) }
    ensures draws { IfOk result (λ _. draws.new ≡ next (next (next draws.old))) }
{
    Ok(Request::Put {
        id: order_id(alloc, number)?,
        expected: Expect::Any,
        body: order(alloc, draws)?,
    })
}

fn deleting(alloc: Global, number: u64) -> Result<Request, NoMemory>
    ensures { IfOk result (λ request. request_view request ≡ Delete (spec_order_id number) AnyVector) }
{
    Ok(Request::Delete {
        id: order_id(alloc, number)?,
        expected: Expect::Any,
    })
}

impl<K: Keeper> Measured<K> {
    // After each tenth order, deletes the one that is five before it.
    #[tactic(auto, using(crate::proofs::Doing::nothing))]
    fn delete_after<R: Threads + Sync, C: Clock>(
        &mut self,
        rt: &R,
        alloc: Global,
        clock: &C,
        number: u64,
    ) -> Result<(), Stop>
        requires number { 1 ≤ number }
        requires room { self.old.moved + 1 < 2 ^ 64 }
        ensures done { OnOk result (Does (C.moment clock.now) self.old (deletions number) self.new) }
        ensures stopped { IfErr result (Stops (C.moment clock.now) self.old (deletions number) self.new) }
    {
        if !number.is_multiple_of(10) {
            return Ok(());
        }
        self.make(rt, alloc, clock, deleting(alloc, number - 5)?)
    }

    // After each hundredth order, makes a batch.
    #[tactic(auto, using(crate::proofs::Doing::nothing))]
    fn pump_after<R: Threads + Sync, C: Clock>(
        &mut self,
        rt: &R,
        alloc: Global,
        clock: &C,
        options: Options,
        number: u64,
    ) -> Result<(), Stop>
        requires room { self.old.moved + 1 < 2 ^ 64 }
        ensures done { OnOk result (Does (C.moment clock.now) self.old (spec_batches (options_view options) number) self.new) }
        ensures stopped { IfErr result (Stops (C.moment clock.now) self.old (spec_batches (options_view options) number) self.new) }
    {
        if !number.is_multiple_of(100) {
            return Ok(());
        }
        self.make(rt, alloc, clock, pumping(alloc, options)?)
    }

    // What is asked with the order that follows this many others.
    fn with_order<R: Threads + Sync, C: Clock>(
        &mut self,
        rt: &R,
        alloc: Global,
        clock: &C,
        options: Options,
        earlier: u64,
        draws: &mut Draws,
    ) -> Result<(), Stop>
        requires few { earlier < 2 ^ 32 }
        requires room { self.old.moved + 3 < 2 ^ 64 }
        requires drawn { draws.old ≡ draw options.seed (3 * earlier) }
        ensures done { OnOk result (Does (C.moment clock.now) self.old (requests_with (options_view options) earlier) self.new) }
        ensures stopped { IfErr result (Stops (C.moment clock.now) self.old (requests_with (options_view options) earlier) self.new) }
        ensures draws { OnOk result (draws.new ≡ draw options.seed (3 * (earlier + 1))) }
    {
        let number = earlier + 1;
        self.make(rt, alloc, clock, putting(alloc, number, draws)?)?;
        self.delete_after(rt, alloc, clock, number)?;
        self.pump_after(rt, alloc, clock, options, number)
    }

    // Defines the index, if there is a request for it.
    #[tactic(auto, using(crate::proofs::Doing::nothing))]
    fn define<R: Threads + Sync, C: Clock>(
        &mut self,
        rt: &R,
        alloc: Global,
        clock: &C,
        definition: Option<Request>,
    ) -> Result<(), Stop>
        requires formed { IfSome definition (λ request. MayBeMade (request_view request)) }
        requires room { self.old.moved + 1 < 2 ^ 64 }
        ensures done { OnOk result (Does (C.moment clock.now) self.old (requests_view definition) self.new) }
        ensures stopped { IfErr result (Stops (C.moment clock.now) self.old (requests_view definition) self.new) }
    {
        match definition {
            Some(request) => self.make(rt, alloc, clock, request),
            None => Ok(()),
        }
    }

    /// Defines the index, if there is a request for it, and writes all orders.
    pub fn fill<R: Threads + Sync, C: Clock>(
        &mut self,
        rt: &R,
        alloc: Global,
        clock: &C,
        options: Options,
        definition: Option<Request>,
    ) -> Result<(), Stop>
        requires formed { IfSome definition (λ request. MayBeMade (request_view request)) }
        requires none { self.old.moved ≡ 0 }
        ensures done { OnOk result (Does (C.moment clock.now) self.old (requests_view definition ++ requests (options_view options) options.docs) self.new) }
        ensures stopped { IfErr result
            (Stops (C.moment clock.now) self.old (requests_view definition ++ requests (options_view options) options.docs) self.new) }
    {
        self.define(rt, alloc, clock, definition)?;
        let mut draws = Draws::of(options.seed);
        for earlier in 0..u64::from(options.docs) {
            self.with_order(rt, alloc, clock, options, earlier, &mut draws)?;
        }
        Ok(())
    }
}
