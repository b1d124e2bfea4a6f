//! What the map of an index has given, counted.
ghost use Rattle.std.specs.Prelude.{◌≡◌, [], filter, length, IfOk};
ghost use Rattle.std.specs.List.{count_by, filter_map};
ghost use Rattle.std.specs.Map.{lookup, remove_entry, values_of};
ghost use Rattle.std.specs.Option.{option_copied};
ghost use Rattle.std.specs.BTreeMap.{insert_entry, is_at};
ghost use Rattle.std.specs.Ordering.{is_lt};
ghost use Rattle.paged_map.specs.Pairs.{IsRising};
ghost use Rattle.reference_track.specs.Sets.{id_cmp};
ghost use Rattle.spec_index.specs.Mapping.{has_failed};
ghost use Rattle.index_version.specs.Kept.{entry_given, is_entry, is_failure, one_if};

use crate::given::{Given, NOTHING, Tally};
use paged_map::{PagedMap, Pairs};
use raven_base::{NoMemory, Shared};
use raven_value::Id;
use std::alloc::{AllocError, Global};
use std::marker::Model;

/// What the map has given for each document that it maps, under the ids of these, seen by contracts as the list of these pairs.
/// Each change keeps the numbers of entries and of failures, so both are known without a walk.
///
/// A clone shares all pages, and a change copies only pages that others have too.
pub struct Results {
    given: PagedMap<Id, Shared<Given>>,
    tally: Tally,
}

// Opaque drop: see raven_base.
impl Drop for Results {
    fn drop(self) {
        let Results {
            given: _given,
            tally: _tally,
        } = self;
    }
}

impl Model for Results {
    ghost use Rattle.std.specs.Prelude.{ℕ, List};
    ghost use Rattle.std.specs.Coded.{coded×, coded_list};
    ghost use Rattle.spec_data.specs.Codes.{text_code};
    ghost use Rattle.index_version.specs.Kept as kept;

    ghost Value = { List (List ℕ × kept.Given) };

    ghost coded = { coded_list (coded× text_code kept.given_code) };

    ghost view = { λ a. a.given };

    ghost invariant = { λ a. kept.AreCounted a.given a.tally.entries a.tally.errors };
}

/// What the result at an id counts for, if there is one.
fn tally_at(given: &PagedMap<Id, Shared<Given>>, id: &Id) -> Tally
    ensures entries { result.entries ≡ one_if is_entry (lookup (is_at (id_cmp id.now)) given.now) }
    ensures errors { result.errors ≡ one_if is_failure (lookup (is_at (id_cmp id.now)) given.now) }
{
    match given.get(id) {
        Some(shared) => shared.get().tally(),
        None => NOTHING,
    }
}

impl Results {
    /// Nothing.
    pub fn new(alloc: Global) -> Result<Results, NoMemory>
        ensures { IfOk result (λ results. results ≡ []) }
    {
        Ok(Results {
            given: PagedMap::new(alloc)?,
            tally: NOTHING,
        })
    }

    /// With a result at an id, in place of the one there. If the id is there already, its spelling stays.
    pub fn put(self, alloc: Global, id: Id, given: Given) -> Result<Results, NoMemory>
        ensures { IfOk result (λ results. results ≡ insert_entry id_cmp self id given) }
    {
        let Results { given: all, tally } = self;
        let old = tally_at(&all, &id);
        let new = given.tally();
        let shared = Shared::of(alloc, given)?;
        let all = all.put(alloc, id, shared)?;
        // The number of all bounds that of some.
        let _all = all.len();
        let entries = tally.entries - old.entries + new.entries;
        let errors = tally.errors - old.errors + new.errors;
        Ok(Results {
            given: all,
            tally: Tally { entries, errors },
        })
    }

    /// Without the result at an id, if there is one.
    pub fn take_out(self, alloc: Global, id: &Id) -> Result<Results, NoMemory>
        ensures pairs { IfOk result (λ results. results ≡ remove_entry (is_at (id_cmp id.now)) self) }
        ensures rising { IfOk result (λ _. IsRising id_cmp self) }
    {
        let Results { given: all, tally } = self;
        let old = tally_at(&all, id);
        let entries = tally.entries - old.entries;
        let errors = tally.errors - old.errors;
        Ok(Results {
            given: all.take_out(alloc, id)?,
            tally: Tally { entries, errors },
        })
    }

    /// The result at an id, if there is one.
    pub fn get(&self, id: &Id) -> Option<&Shared<Given>>
        ensures { option_copied result ≡ lookup (is_at (id_cmp id.now)) self.now }
    {
        self.given.get(id)
    }

    /// How many there are.
    pub fn len(&self) -> u64
        ensures count { result ≡ length self.now }
        ensures rising { IsRising id_cmp self.now }
    {
        self.given.len()
    }

    /// How many entries there are.
    pub fn entries(&self) -> u64
        ensures count { result ≡ length (filter_map entry_given (values_of self.now)) }
        ensures rising { IsRising id_cmp self.now }
    {
        self.tally.entries
    }

    /// How many documents failed.
    pub fn errors(&self) -> u64
        ensures count { result ≡ count_by (λ g. has_failed g.mapped.outcome) (values_of self.now) }
        ensures rising { IsRising id_cmp self.now }
    {
        self.tally.errors
    }

    /// All of them, in order of their folded ids.
    pub fn iter(&self) -> Pairs<'_, Id, Shared<Given>>
        ensures pairs { result ≡ self.now }
        ensures rising { IsRising id_cmp self.now }
    {
        self.given.iter()
    }

    /// Those past an id, in order of their folded ids.
    pub fn after(&self, id: &Id) -> Pairs<'_, Id, Shared<Given>>
        ensures pairs { result ≡ filter (λ e. is_lt (id_cmp id.now e.0)) self.now }
        ensures rising { IsRising id_cmp self.now }
    {
        self.given.after(id)
    }
}

impl Clone for Results {
    ghost is_clone = { λ s t. t ≡ s };

    fn clone(&self) -> Result<Results, AllocError> {
        Ok(Results {
            given: self.given.clone()?,
            tally: self.tally,
        })
    }
}
