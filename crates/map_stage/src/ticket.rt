//! What a map costs.
ghost use Rattle.std.specs.Prelude.{◌≡◌};
ghost use Rattle.raven_base.specs.Counts.{one_map_more};

use raven_base::Steps;
use std::sync::ledger::Ledger;

/// The right to have one document mapped, which a counter has counted before. It takes no bytes.
///
/// A map takes its ticket, and a ticket is neither copied nor made without a counter. So a counter has counted at least as many maps as
/// were made for its tickets, also by other threads, which the tickets are given to.
#[derive(Drop)]
pub struct Ticket {
    counted: (),
}

impl Ticket {
    /// The ticket for one map, which is counted here.
    pub fn of<L: Ledger>(steps: &mut Steps<L>) -> Ticket
        ensures { steps.new ≡ one_map_more steps.old }
    {
        steps.map_done();
        Ticket { counted: () }
    }
}
