//! One session over the input and the output of a program.
ghost use Rattle.std.specs.Prelude.{◌≡◌, ◌≤◌};
ghost use Rattle.http_desk.specs.ProgramSessions.{EndsSo, IsUnopened, devices_of, end_of as spec_end_of, end_unopened as spec_end_unopened};

use crate::session::serve_alone;
use doc_keeper::LoadFault;
use doc_txn::BaseId;
use http_parts::Routes;
use http_read::HttpEnd;
use http_session::Why;
use raven_desk::{Live, OneDesk, Unopened};
use raven_ports::{Clock, Keeper, Sink, Source};
use raven_value::Text;
use std::alloc::Global;
use std::sync::Arc;
use std::thread::Threads;

/// How a session over the input and the output ended.
#[derive(Clone, Copy)]
pub enum ServeEnd {
    /// The input was read to its end, or to a request that closes, and all responses were written.
    Done,

    /// A call of the input failed. The responses to all requests before are written.
    ReadFault,

    /// A call of the output failed. What was written is a prefix of the responses.
    WriteFault,

    /// A call of the keeper failed while the database was opened. Nothing was read or written.
    KeptFault,

    /// The keeper holds an invalid row. Nothing was read or written.
    KeptBad {
        /// The etag of the first such row.
        etag: u64,
    },

    /// The bytes are no further request, or end inside one.
    Refused {
        end: HttpEnd,
    },

    /// 1,000 requests were answered.
    Enough,

    /// Memory ran out.
    NoMemory,
}

/// What is served: the base id of the database and its name, and the size of the batches that are made after each request, or 0.
#[derive(Drop)]
pub struct Serving {
    pub base: BaseId,
    pub name: Text,
    pub pump: u32,
}

/// How a session ended, and the keeper that it was called with.
pub struct Served<K> {
    pub end: ServeEnd,
    pub keeper: K,
}

fn end_unopened(fault: LoadFault) -> ServeEnd
    ensures { result ≡ spec_end_unopened fault }
{
    match fault {
        LoadFault::Failed => ServeEnd::KeptFault,
        LoadFault::KeptBad { etag } => ServeEnd::KeptBad { etag },
        LoadFault::NoMemory => ServeEnd::NoMemory,
    }
}

fn end_of(why: Why) -> ServeEnd
    ensures { result ≡ spec_end_of why }
{
    match why {
        Why::Ended | Why::Closed => ServeEnd::Done,
        Why::Http(end) => ServeEnd::Refused { end },
        Why::ReadFault => ServeEnd::ReadFault,
        Why::WriteFault => ServeEnd::WriteFault,
        Why::Enough => ServeEnd::Enough,
        Why::NoMemory => ServeEnd::NoMemory,
    }
}

/// Opens the database of the rows that the keeper holds, and then serves one session over the input and the output, at the moments that the clock
/// gives. The keeper is returned in each case.
pub fn serve_input<R: Threads + Sync, S: Source, O: Sink, K: Keeper, C: Clock + Drop>(
    rt: &R,
    alloc: Global,
    serving: Serving,
    input: &mut S,
    output: &mut O,
    keeper: K,
    clock: Arc<C>,
) -> Served<K>
    requires pump { serving.pump ≤ 65536 }
    ensures ends { EndsSo result.end (record {
      base = serving.base;
      name = serving.name;
      pump = serving.pump;
      clock = C.moment clock.value;
      before = devices_of (S.state input.old) (O.state output.old) (K.state keeper);
      after = devices_of (S.state input.new) (O.state output.new) (K.state result.keeper);
    }) }
    ensures unopened { IsUnopened result.end → (input.new ≡ input.old) × ((output.new ≡ output.old) × ((K.state result.keeper).held ≡ (K.state keeper).held)) }
{
    let Serving { base, name, pump } = serving;
    let Ok(routes) = Routes::new(alloc) else {
        let end = ServeEnd::NoMemory;
        return Served { end, keeper };
    };
    let live = match Live::open(alloc, keeper, base) {
        Ok(live) => live,
        Err(Unopened { keeper, fault }) => {
            let end = end_unopened(fault);
            return Served { end, keeper };
        }
    };
    let desk = OneDesk::new(live, clock, pump);
    let (why, desk) = serve_alone(rt, alloc, &routes, desk, name, input, output);
    let end = end_of(why);
    let keeper = desk.finish().into_keeper();
    Served { end, keeper }
}
