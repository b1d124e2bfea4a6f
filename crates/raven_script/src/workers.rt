//! The lines of workers.
ghost use Rattle.spec_server.specs.Reading.{publish_of, read_of};
ghost use Rattle.raven_request.specs.RequestView.{Reads};
ghost use Rattle.raven_script.specs.LineView.{line_view};

use crate::request::Line;
use crate::words::{max_of, parts, worker_of};
use raven_request::{ReadRefusal, name_of};
use std::alloc::Global;

/// A worker reads one batch of an index. Its number is read first, then how many rows, and then the name.
#[tactic(auto, using(raven_request::proofs::Readings::readings))]
pub fn read(alloc: Global, more: &str) -> Result<Line, ReadRefusal>
    ensures { Reads line_view result (read_of more.now) }
{
    let (worker, rest) = parts(more)?;
    let (max, index) = parts(rest)?;
    let worker = worker_of(worker)?;
    let max = max_of(max)?;
    match name_of(alloc, index) {
        Ok(index) => Ok(Line::Read { worker, max, index }),
        Err(refusal) => Err(refusal),
    }
}

/// A worker publishes the batch that it holds.
#[tactic(auto, using(raven_request::proofs::Readings::readings))]
pub fn publish(more: &str) -> Result<Line, ReadRefusal>
    ensures { Reads line_view result (publish_of more.now) }
{
    match worker_of(more) {
        Ok(worker) => Ok(Line::Publish { worker }),
        Err(refusal) => Err(refusal),
    }
}
