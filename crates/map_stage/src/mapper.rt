//! What maps give.
ghost use Rattle.std.specs.Prelude.{◌≡◌, List, ℕ, IfOk};
ghost use Rattle.spec_data.specs.Rows as is;
ghost use Rattle.index_tree.specs.Asking as asking;
ghost use Rattle.index_tree.specs.Meaning as meaning;
ghost use Rattle.map_stage.specs.MappedView.{mapped_view};
ghost use Rattle.map_stage.specs.Words.{OutcomeHasWords};

use crate::fields::Entry;
use crate::lookup::Lookup;
use crate::ticket::Ticket;
use raven_base::NoMemory;
use raven_value::{Ids, Row};
use std::alloc::Global;

/// What the map gives for a document.
pub enum Outcome {
    /// Its entry.
    Entry(Entry),
    /// It has no entry.
    Nothing,
    /// Its entry cannot be computed.
    Failed,
}

// Opaque drop: see raven_base.
impl Drop for Outcome {
    fn drop(self) {
        match self {
            Outcome::Entry(_value) => {}
            Outcome::Nothing => {}
            Outcome::Failed => {}
        }
    }
}

/// What a map gives for a document.
pub struct Mapped {
    pub outcome: Outcome,

    /// The ids that were looked up, in order, also those before a failure; in which spelling is not promised.
    pub loads: Ids,
}

// Opaque drop: see raven_base.
impl Drop for Mapped {
    fn drop(self) {
        let Mapped {
            outcome: _outcome,
            loads: _loads,
        } = self;
    }
}

/// A map from documents to entries.
pub trait Mapper {
    /// What it gives for a row, over rows by their folded ids.
    ghost meaning: { Self → is.Row → asking.Lookup → meaning.Mapped };

    /// The result for a document. What is not a document is taken as null. Each number of an entry has 64 bits.
    ///
    /// Each call takes a ticket, for which one map was counted. The rows that are looked up are not counted.
    fn map<T: Lookup>(
        &self,
        alloc: Global,
        doc: &Row,
        rows: &T,
        ticket: Ticket,
    ) -> Result<Mapped, NoMemory>
        ensures mapped { IfOk result (λ mapped. mapped_view mapped ≡ meaning self.now doc.now (T.rows rows.now)) }
        ensures words { IfOk result (λ mapped. OutcomeHasWords (mapped_view mapped).outcome) };

    /// It depends on the document and on what the lookups give, and on nothing else.
    ghost local: { (m : Self) (d : is.Row) (find other : asking.Lookup) →
        asking.AgreeAt (meaning m d find).loads find other → meaning m d other ≡ meaning m d find };
}
