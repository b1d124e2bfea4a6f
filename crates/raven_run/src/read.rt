//! The whole input.
ghost use Rattle.std.specs.Prelude.{◌≡◌, ◌≤◌, length, IfErr, IfOk, IfSome, [], Some, IsErrOf};
ghost use Rattle.raven_ports.specs.Faults.{Rose};
ghost use Rattle.raven_ports.specs.Taken.{TakesMore, TakesWithin};
ghost use Rattle.spec_server.specs.Lines.{max_input};
ghost use Rattle.raven_run.specs.Ends.{IsUnread};

use crate::run_end::RunEnd;
use raven_ports::{ReadStop, Source, read_all};
use std::alloc::Global;

/// The longest input, in bytes.
const MAX_INPUT: usize = 16_777_216;

/// All that is left of the input. If it is too large, one byte more is taken than may be read.
pub(crate) fn read_input<S: Source>(alloc: Global, source: &mut S) -> Result<Vec<u8>, RunEnd>
    ensures all { IfOk result (λ v. IfSome (S.state source.old).left (λ left. (left ≡ v.items) × ((S.state source.new).left ≡ Some []))) }
    ensures size { IfOk result (λ v. length v.items ≤ max_input) }
    ensures unread { IfErr result IsUnread }
    ensures large { IsErrOf result RunEnd.InputTooLarge → TakesMore max_input (S.state source.old).left (S.state source.new).left }
    ensures within { IsErrOf result RunEnd.ReadFault → TakesWithin max_input (S.state source.old).left (S.state source.new).left }
    ensures later { (S.state source.old).faults ≤ (S.state source.new).faults }
    ensures cause { IsErrOf result RunEnd.ReadFault → Rose (S.state source.old).faults (S.state source.new).faults }
{
    match read_all(alloc, source, MAX_INPUT) {
        Ok(all) => Ok(all),
        Err(ReadStop::Failed) => Err(RunEnd::ReadFault),
        Err(ReadStop::TooLarge) => Err(RunEnd::InputTooLarge),
        Err(ReadStop::NoMemory) => Err(RunEnd::NoMemory),
    }
}
