//! The entries of a version of an index.
ghost use Rattle.std.specs.Prelude.{◌≡◌, None, find, option_map};
ghost use Rattle.raven_base.specs.Counts.{one_read_more};
ghost use Rattle.spec_data.specs.Folding.{folded};
ghost use Rattle.index_version.specs.Entries.{all_entries};
ghost use Rattle.index_version.specs.Reduced.{reduce_of};
ghost use Rattle.rql_filter.specs.Entries.{entry_at, is_past};

use index_version::IndexVersion;
use map_stage::Entry;
use raven_base::{NoMemory, Steps};
use raven_value::{Id, Ids};
use rql_filter::{Entries, Reads};
use std::alloc::Global;
use std::marker::Model;
use std::sync::ledger::Ledger;
use term_index::Terms;

/// The entries that a version of an index without a reduce has, under the ids of their documents. A version with a reduce has no terms of
/// them.
#[derive(Drop)]
pub(crate) struct IndexEntries<'v> {
    version: &'v IndexVersion,
}

impl<'v> Model for IndexEntries<'v> {
    ghost use Rattle.std.specs.Prelude.{◌≡◌, None};
    ghost use Rattle.spec_index.specs.Codes.{version_code};
    ghost use Rattle.spec_index.specs.World.{Version};
    ghost use Rattle.index_version.specs.Reduced.{reduce_of};

    ghost Value = { Version };

    ghost coded = { version_code };

    ghost view = { λ a. a.version.now.version };

    ghost invariant = { λ a. reduce_of a.version.now.version.definition ≡ None };
}

impl<'v> IndexEntries<'v> {
    /// Those of this version.
    pub(crate) fn of(version: &'v IndexVersion) -> IndexEntries<'v>
        requires { reduce_of version.now.version.definition ≡ None }
        ensures { result ≡ version.now.version }
    {
        IndexEntries { version }
    }
}

impl<'v> Entries for IndexEntries<'v> {
    ghost entries = { all_entries };

    fn terms(&self) -> &Terms {
        self.version.terms()
    }

    fn ids(&self, alloc: Global) -> Result<Ids, NoMemory> {
        self.version.ids(alloc)
    }

    fn len(&self) -> u64 {
        self.version.entries()
    }

    fn walk_len(&self) -> u64 {
        self.version.walk_len()
    }
}

impl<'v, L: Ledger> Reads<L> for IndexEntries<'v> {
    fn entry_after(&self, id: Option<&Id>, steps: &mut Steps<L>) -> Option<(&Id, &Entry)>
        ensures entry { option_map (λ e. (e.0.now, e.1.now)) result ≡ find (λ e. is_past (option_map (λ i. folded i.now) id.entry) e.0) (all_entries self.now) }
        ensures read { steps.new ≡ one_read_more steps.old }
    {
        self.version.entry_after(id, steps)
    }

    fn entry_of(&self, id: &Id, steps: &mut Steps<L>) -> Option<(&Id, &Entry)>
        ensures entry { option_map (λ e. (e.0.now, e.1.now)) result ≡ entry_at (folded id.now) (all_entries self.now) }
        ensures read { steps.new ≡ one_read_more steps.old }
    {
        self.version.entry_of(id, steps)
    }
}
