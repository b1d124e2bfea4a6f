//! Writing whole pieces.
ghost use Rattle.std.specs.Prelude.{◌≡◌, ◌≤◌, OnOk, OnErr, IsErrOf};
ghost use Rattle.raven_ports.specs.Faults.{Rose};
ghost use Rattle.raven_ports.specs.Given.{GivesPrefix};
ghost use Rattle.raven_ports.specs.Reported.{appended};

use crate::ports::{Sink, SinkFault};

/// Gives all of these bytes to a sink; if it fails, a prefix of them.
#[tactic(auto, using(crate::proofs::Pieces::runs))]
pub fn give_all<O: Sink>(sink: &mut O, bytes: &[u8]) -> Result<(), SinkFault>
    ensures ok { OnOk result ((O.state sink.new).held ≡ appended (O.state sink.old).held bytes.now) }
    ensures err { OnErr result (GivesPrefix (O.state sink.old).held (O.state sink.new).held bytes.now) }
    ensures later { (O.state sink.old).faults ≤ (O.state sink.new).faults }
    ensures gave { O.gave sink.old sink.new }
    ensures cause { IsErrOf result SinkFault.Failed → Rose (O.state sink.old).faults (O.state sink.new).faults }
{
    let mut rest = bytes;
    while !rest.is_empty() {
        let count = sink.give(rest)?;
        let (_, more) = rest.split_at(count);
        rest = more;
    }
    Ok(())
}
