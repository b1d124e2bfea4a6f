//! The entries of an index, as queries read them.
ghost use Rattle.std.specs.Prelude.{◌≡◌, ◌≤◌, IfOk, find, length, map, option_map};
ghost use Rattle.raven_base.specs.Counts.{one_read_more};
ghost use Rattle.spec_data.specs.Folding.{folded};
ghost use Rattle.rql_filter.specs.Entries.{AreTermsOf, EntryList, entry_at, ids_of, is_past};

use map_stage::Entry;
use raven_base::{NoMemory, Steps};
use raven_value::{Id, Ids};
use std::alloc::Global;
use std::sync::ledger::Ledger;
use term_index::Terms;

/// The entries of an index, with the terms of their fields. None of these calls reads an entry: `Reads` has those that do.
pub trait Entries {
    /// The entries under the ids of their documents, in the order of the folded ids.
    ghost entries: { Self → EntryList };

    /// The values of all fields of all entries.
    fn terms(&self) -> &Terms
        ensures { AreTermsOf (entries self.now) result.now };

    /// The ids of all entries, in order.
    fn ids(&self, alloc: Global) -> Result<Ids, NoMemory>
        ensures { IfOk result (λ ids. ids ≡ ids_of (entries self.now)) };

    /// How many entries there are. The number is kept.
    fn len(&self) -> u64
        ensures { result ≡ length (entries self.now) };

    /// How many documents a walk over all entries passes, those without an entry too.
    fn walk_len(&self) -> u64
        ensures { length (entries self.now) ≤ result };
}

/// Reading the entries of an index, one at a time, on counters with this ledger. A caller with any other counter cannot read them.
pub trait Reads<L: Ledger>: Entries {
    /// The first entry whose id is past this one, or the first of all if there is no id. Each call counts as a row that is read.
    fn entry_after(&self, id: Option<&Id>, steps: &mut Steps<L>) -> Option<(&Id, &Entry)>
        ensures entry { option_map (λ e. (e.0.now, e.1.now)) result ≡ find (λ e. is_past (option_map (λ i. folded i.now) id.entry) e.0) (Self.entries self.now) }
        ensures read { steps.new ≡ one_read_more steps.old };

    /// The entry of an id, with the id as its document spells it. Each call counts as a row that is read.
    fn entry_of(&self, id: &Id, steps: &mut Steps<L>) -> Option<(&Id, &Entry)>
        ensures entry { option_map (λ e. (e.0.now, e.1.now)) result ≡ entry_at (folded id.now) (Self.entries self.now) }
        ensures read { steps.new ≡ one_read_more steps.old };
}
