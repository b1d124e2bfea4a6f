//! How entries become one row.
ghost use Rattle.std.specs.Prelude.{◌≡◌, IfOk};
ghost use Rattle.raven_base.specs.Counts.{one_merge_more};

use raven_base::{Exact, NoMemory, Steps};
use std::alloc::Global;
use std::sync::ledger::Ledger;

/// How entries become one row: each is lifted to a row, and rows are merged.
///
/// By the laws a list of entries has one row, in whatever order its entries come and in whatever parts they are merged.
pub trait Fold<E>: Drop {
    /// The row of some entries.
    type Row: Exact + Drop;

    /// The row of one entry.
    ghost lifted: { Self → E → Self.Row };

    /// The row of no entries.
    ghost none: { Self → Self.Row };

    /// The row of the entries of both rows. It depends on the rows and on the type that implements this alone.
    ghost merged: { Self.Row → Self.Row → Self.Row };

    /// The row of one entry.
    fn lift(&self, alloc: Global, entry: &E) -> Result<Self::Row, NoMemory>
        ensures { IfOk result (λ row. row ≡ lifted self.now entry.now) };

    /// The row of no entries.
    fn unit(&self, alloc: Global) -> Result<Self::Row, NoMemory>
        ensures { IfOk result (λ row. row ≡ none self.now) };

    /// The row of the entries of both rows. It counts one merge, also if it runs out of memory.
    fn merge<L: Ledger>(
        &self,
        alloc: Global,
        a: &Self::Row,
        b: &Self::Row,
        steps: &mut Steps<L>,
    ) -> Result<Self::Row, NoMemory>
        ensures merged { IfOk result (λ row. row ≡ merged a.now b.now) }
        ensures counted { steps.new ≡ one_merge_more steps.old };

    ghost associative: { (a b c : Self.Row) → merged (merged a b) c ≡ merged a (merged b c) };

    ghost commutative: { (a b : Self.Row) → merged a b ≡ merged b a };

    ghost unital: { (f : Self) (e : E) → merged (lifted f e) (none f) ≡ lifted f e };

    ghost unital_none: { (f : Self) → merged (none f) (none f) ≡ none f };
}
