//! The command.
ghost use Rattle.std.specs.Prelude.{◌≡◌, IfErr, IfOk, IfSome, OnOk};
ghost use Rattle.spec_desk.specs.Keepers.{Keeps};
ghost use Rattle.spec_desk.specs.Lived.{machine_in};
ghost use Rattle.raven_desk.specs.Openings.{Loads};
ghost use Rattle.raven_request.specs.RequestView.{request_view};
ghost use Rattle.raven_measure.specs.Defining.{MayBeMade, requests_view};
ghost use Rattle.raven_measure.specs.Doing.{Measures, StopsMeasuring};
ghost use Rattle.raven_measure.specs.Ends.{IsRefused, IsUnmeasured, MeasuresRightly, end_of_load, end_of_stop};
ghost use Rattle.raven_measure.specs.Measures.{Begins, ends_of};
ghost use Rattle.raven_measure.specs.OptionsView.{options_view};

use crate::definition::defining;
use crate::making::{Measured, Stop};
use crate::options::Options;
use crate::summary::summary_line;
use doc_keeper::LoadFault;
use doc_txn::BaseId;
use raven_desk::{Live, Unopened};
use raven_ports::{Clock, Keeper, Sink, SinkFault, give_all};
use raven_request::Request;
use std::alloc::Global;
use std::thread::Threads;

/// How a measurement ended.
#[derive(Clone, Copy)]
pub enum MeasureEnd {
    /// The summary was written.
    Done,

    /// A call of the output failed. What was written is a prefix of the summary.
    WriteFault,

    /// A call of the keeper failed, while the database was opened or at a request. Nothing was written.
    KeptFault,

    /// The keeper holds an invalid row. Nothing was done.
    KeptBad {
        /// The etag of the first such row.
        etag: u64,
    },

    /// The keeper holds rows, but what is measured is a database of its own. Nothing was done.
    NotEmpty {
        /// The last etag of the database.
        last: u64,
    },

    /// Memory ran out.
    NoMemory,
}

/// How a measurement ended, and the keeper that it was called with.
pub struct Measurement<K> {
    pub end: MeasureEnd,
    pub keeper: K,
}

impl<K: Keeper> Measured<K> {
    // Makes all requests.
    fn make_all<R: Threads + Sync, C: Clock>(
        &mut self,
        rt: &R,
        alloc: Global,
        clock: &C,
        options: Options,
        definition: Option<Request>,
    ) -> Result<(), Stop>
        requires formed { IfSome definition (λ request. MayBeMade (request_view request)) }
        requires none { self.old.moved ≡ 0 }
        ensures done { OnOk result (Measures (C.moment clock.now) (options_view options) (requests_view definition) self.old self.new) }
        ensures stopped { IfErr result (StopsMeasuring (C.moment clock.now) (options_view options) (requests_view definition) self.old self.new) }
    {
        self.fill(rt, alloc, clock, options, definition)?;
        self.catch_up(rt, alloc, clock, options)
    }

    // The measurement that ends here.
    fn ended(self, end: MeasureEnd) -> Measurement<K>
        ensures end { result.end ≡ end }
        ensures keeper { K.state result.keeper ≡ self.live.keeper }
        ensures keeps { Keeps (K.state result.keeper).held (machine_in self.live) }
    {
        let keeper = self.into_keeper();
        Measurement { end, keeper }
    }
}

fn end_of(stop: Stop) -> MeasureEnd
    ensures { result ≡ end_of_stop stop }
{
    match stop {
        Stop::Kept => MeasureEnd::KeptFault,
        Stop::NoMemory => MeasureEnd::NoMemory,
    }
}

fn end_by(fault: LoadFault) -> MeasureEnd
    ensures { result ≡ end_of_load fault }
{
    match fault {
        LoadFault::Failed => MeasureEnd::KeptFault,
        LoadFault::KeptBad { etag } => MeasureEnd::KeptBad { etag },
        LoadFault::NoMemory => MeasureEnd::NoMemory,
    }
}

// The database of the rows that the keeper holds, which have to be none.
fn empty_from<K: Keeper>(alloc: Global, keeper: K) -> Result<Measured<K>, Measurement<K>>
    ensures begins { IfOk result (Begins (K.state keeper)) }
    ensures cause { IfErr result (λ ended. IsUnmeasured (K.state keeper) (K.state ended.keeper) ended.end) }
    ensures loads { IfErr result (λ ended. Loads (K.state keeper) (K.state ended.keeper)) }
{
    let Ok(base) = BaseId::program(alloc) else {
        let end = MeasureEnd::NoMemory;
        return Err(Measurement { end, keeper });
    };
    let live = match Live::open(alloc, keeper, base) {
        Ok(live) => live,
        Err(Unopened { keeper, fault }) => {
            let end = end_by(fault);
            return Err(Measurement { end, keeper });
        }
    };
    let measured = Measured::of(live);
    match measured.last() {
        0 => Ok(measured),
        last => Err(measured.ended(MeasureEnd::NotEmpty { last })),
    }
}

/// The command: it opens the database of the rows that the keeper holds, which have to be none, defines the index, writes the orders, makes batches
/// until there is nothing to do, and writes the summary. The keeper is returned in each case.
///
/// What each end says is in `MeasuresRightly`, one named fact after another.
pub fn measure<R: Threads + Sync, O: Sink, K: Keeper, C: Clock>(
    rt: &R,
    alloc: Global,
    options: &Options,
    output: &mut O,
    keeper: K,
    clock: &C,
) -> Measurement<K>
    ensures ends { MeasuresRightly result.end (record {
      options = options_view options.now;
      clock = C.moment clock.now;
      before = ends_of (O.state output.old) (K.state keeper);
      after = ends_of (O.state output.new) (K.state result.keeper);
    }) }
    ensures refused { IsRefused result.end → (output.new ≡ output.old) × ((K.state result.keeper).held ≡ (K.state keeper).held) }
{
    let mut measured = match empty_from(alloc, keeper) {
        Ok(measured) => measured,
        Err(ended) => return ended,
    };
    let Ok(definition) = defining(alloc) else {
        return measured.ended(MeasureEnd::NoMemory);
    };
    if let Err(stop) = measured.make_all(rt, alloc, clock, *options, definition) {
        return measured.ended(end_of(stop));
    }
    let Ok(line) = summary_line(rt, alloc, &measured) else {
        return measured.ended(MeasureEnd::NoMemory);
    };
    match give_all(output, line.as_bytes()) {
        Ok(()) => measured.ended(MeasureEnd::Done),
        Err(SinkFault::Failed) => measured.ended(MeasureEnd::WriteFault),
        Err(SinkFault::NoMemory) => measured.ended(MeasureEnd::NoMemory),
    }
}
