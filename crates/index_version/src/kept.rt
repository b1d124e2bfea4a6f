//! What an index stores besides its documents.
ghost use Rattle.std.specs.Prelude.{◌≡◌, ℕ, List, None, Some, IfOk, false, filter, length, cond, map, option_map};
ghost use Rattle.std.specs.FinMap.{empty, get};
ghost use Rattle.std.specs.List.{count_by, filter_map, slice_get};
ghost use Rattle.spec_data.specs.Folding.{folded, same_key};
ghost use Rattle.spec_index.specs.Mapping.{has_failed};
ghost use Rattle.std.specs.BTreeMap.{is_at};
ghost use Rattle.std.specs.Map.{lookup, values_of};
ghost use Rattle.std.specs.Option.{option_and_then};
ghost use Rattle.paged_map.specs.Pairs.{IsRising};
ghost use Rattle.reference_track.specs.Sets.{id_cmp, is_id};
ghost use Rattle.reference_track.specs.Tracks.{is_pair};
ghost use Rattle.reference_track.specs.Folded.{by_folded};
ghost use Rattle.index_version.specs.Entries.{is_past};
ghost use Rattle.index_version.specs.Kept.{entry_given, is_loaded};

use crate::given::Given;
use crate::results::Results;
use map_stage::Entry;
use paged_map::Pairs;
use raven_base::{NoMemory, Shared};
use raven_value::{Id, Ids};
use reference_track::Referrers;
use std::alloc::Global;

/// What the map has given for each document that it maps, under the ids of these, and which of them load which ids.
///
/// A copy shares all pages, and a change copies only pages that others have too.
pub struct Kept {
    pub given: Results,
    pub referrers: Referrers,
}

// Opaque drop: see raven_base.
impl Drop for Kept {
    fn drop(self) {
        let Kept {
            given: _given,
            referrers: _referrers,
        } = self;
    }
}

impl Kept {
    /// Nothing.
    pub fn new(alloc: Global) -> Result<Kept, NoMemory>
        ensures results { IfOk result (λ kept. by_folded kept.given ≡ empty) }
        ensures pairs { IfOk result (λ kept. (x y : List ℕ) → is_pair x y kept.referrers ≡ false) }
    {
        Ok(Kept {
            given: Results::new(alloc)?,
            referrers: Referrers::new(alloc)?,
        })
    }

    /// The same once more.
    pub fn copy(&self) -> Result<Kept, NoMemory>
        ensures { IfOk result (λ kept. kept ≡ self.now) }
    {
        Ok(Kept {
            given: self.given.clone()?,
            referrers: self.referrers.clone()?,
        })
    }

    /// With what the map gives for the document of an id, or without it if the map gives nothing.
    pub fn put(self, alloc: Global, id: &Id, given: Option<Given>) -> Result<Kept, NoMemory>
        ensures results { IfOk result (λ kept. (q : List ℕ) → get (by_folded kept.given) q ≡ cond (same_key q (folded id.now)) given (get (by_folded self.given) q)) }
        ensures pairs { IfOk result (λ kept. (x y : List ℕ) → is_pair x y kept.referrers ≡ cond (is_id x id.now) (is_loaded (folded y) given) (is_pair x y self.referrers)) }
    {
        match given {
            Some(given) => self.put_given(alloc, id, given),
            None => self.take_out(alloc, id),
        }
    }

    fn put_given(self, alloc: Global, id: &Id, given: Given) -> Result<Kept, NoMemory>
        ensures results { IfOk result (λ kept. (q : List ℕ) → get (by_folded kept.given) q ≡ cond (same_key q (folded id.now)) (Some given) (get (by_folded self.given) q)) }
        ensures pairs { IfOk result (λ kept. (x y : List ℕ) → is_pair x y kept.referrers ≡ cond (is_id x id.now) (is_loaded (folded y) (Some given)) (is_pair x y self.referrers)) }
    {
        let Kept {
            given: all,
            referrers,
        } = self;
        let referrers = referrers.replace(alloc, id, given.loads().as_slice())?;
        Ok(Kept {
            given: all.put(alloc, id.clone()?, given)?,
            referrers,
        })
    }

    fn take_out(self, alloc: Global, id: &Id) -> Result<Kept, NoMemory>
        ensures results { IfOk result (λ kept. (q : List ℕ) → get (by_folded kept.given) q ≡ cond (same_key q (folded id.now)) None (get (by_folded self.given) q)) }
        ensures pairs { IfOk result (λ kept. (x y : List ℕ) → is_pair x y kept.referrers ≡ cond (is_id x id.now) false (is_pair x y self.referrers)) }
    {
        let Kept { given, referrers } = self;
        Ok(Kept {
            given: given.take_out(alloc, id)?,
            referrers: referrers.replace(alloc, id, &[])?,
        })
    }

    /// How many entries there are.
    pub fn entries(&self) -> u64
        ensures count { result ≡ length (filter_map entry_given (values_of self.now.given)) }
        ensures rising { IsRising id_cmp self.now.given }
    {
        self.given.entries()
    }

    /// How many documents failed.
    pub fn errors(&self) -> u64
        ensures count { result ≡ count_by (λ g. has_failed g.mapped.outcome) (values_of self.now.given) }
        ensures rising { IsRising id_cmp self.now.given }
    {
        self.given.errors()
    }

    /// The ids of the documents that have entries, in order.
    #[tactic(auto, using(crate::proofs::Walking::ids_step))]
    pub fn ids(&self, alloc: Global) -> Result<Ids, NoMemory>
        ensures ids { IfOk result (λ ids. ids ≡ map (λ e. e.0) (filter_map entry_given (values_of self.now.given))) }
        ensures rising { IsRising id_cmp self.now.given }
    {
        let mut ids = Ids::new(alloc);
        for pair in self.given.iter() {
            if let Some(entry) = pair.1.get().entry() {
                ids.push(entry.0.clone()?)?;
            }
        }
        Ok(ids)
    }

    /// The entry of a document, if it has one, under the id as the document spells it.
    pub fn entry_of(&self, id: &Id) -> Option<(&Id, &Entry)>
        ensures { option_map (λ e. (e.0.now, e.1.now)) result ≡ option_and_then entry_given (lookup (is_at (id_cmp id.now)) self.now.given) }
    {
        match self.given.get(id) {
            Some(given) => given.get().entry(),
            None => None,
        }
    }

    /// How many documents it has something for.
    pub fn len(&self) -> u64
        ensures count { result ≡ length self.now.given }
        ensures rising { IsRising id_cmp self.now.given }
    {
        self.given.len()
    }

    /// The first entry whose document has an id past this one, or the first of all. Documents without an entry are passed over.
    pub fn entry_after(&self, id: Option<&Id>) -> Option<(&Id, &Entry)>
        ensures entry { option_map (λ e. (e.0.now, e.1.now)) result ≡ slice_get (filter_map entry_given (values_of (filter (λ e. is_past (option_map (λ i. folded i.now) id.entry) e.0) self.now.given))) 0 }
        ensures rising { IsRising id_cmp self.now.given }
    {
        match id {
            Some(id) => first_entry(self.given.after(id)),
            None => first_entry(self.given.iter()),
        }
    }
}

/// The first entry of a walk.
#[tactic(auto, using(crate::proofs::Walking::first_step))]
fn first_entry<'a>(pairs: Pairs<'a, Id, Shared<Given>>) -> Option<(&'a Id, &'a Entry)>
    ensures { option_map (λ e. (e.0.now, e.1.now)) result ≡ slice_get (filter_map entry_given (values_of pairs.entry)) 0 }
{
    for pair in pairs {
        if let Some(entry) = pair.1.get().entry() {
            return Some(entry);
        }
    }
    None
}
