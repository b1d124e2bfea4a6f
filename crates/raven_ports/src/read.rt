//! The whole of a source.
ghost use Rattle.std.specs.Prelude.{◌≡◌, ◌≤◌, length, IfOk, IfSome, [], Some, IsErrOf};
ghost use Rattle.raven_ports.specs.Faults.{Rose};
ghost use Rattle.raven_ports.specs.Taken.{TakesMore, TakesWithin};

use crate::ports::Source;
use std::alloc::Global;

/// Why a source was not read to its end.
#[derive(Clone, Copy)]
pub enum ReadStop {
    /// A call of the source failed.
    Failed,

    /// It has more bytes than may be read.
    TooLarge,

    /// Memory ran out.
    NoMemory,
}

/// All that is left of a source, which may be at most `most` bytes. If it is too large, one byte more is taken than may be read.
#[tactic(auto, using(crate::proofs::Pieces::pieces))]
pub fn read_all<S: Source>(alloc: Global, source: &mut S, most: usize) -> Result<Vec<u8>, ReadStop>
    ensures all { IfOk result (λ v. IfSome (S.state source.old).left (λ left. (left ≡ v.items) × ((S.state source.new).left ≡ Some []))) }
    ensures size { IfOk result (λ v. length v.items ≤ most) }
    ensures large { IsErrOf result ReadStop.TooLarge → TakesMore most (S.state source.old).left (S.state source.new).left }
    ensures within { IsErrOf result ReadStop.Failed → TakesWithin most (S.state source.old).left (S.state source.new).left }
    ensures later { (S.state source.old).faults ≤ (S.state source.new).faults }
    ensures cause { IsErrOf result ReadStop.Failed → Rose (S.state source.old).faults (S.state source.new).faults }
{
    let mut all = Vec::new(alloc);
    let mut buf = [0u8; 4096];
    while all.len() <= most {
        let room = (most - all.len()).min(buf.len() - 1) + 1;
        let Ok(count) = source.take(&mut buf[..room]) else {
            return Err(ReadStop::Failed);
        };
        if count == 0 {
            return Ok(all);
        }
        let Ok(()) = all.extend_from_slice(&buf[..count]) else {
            return Err(ReadStop::NoMemory);
        };
    }
    Err(ReadStop::TooLarge)
}
