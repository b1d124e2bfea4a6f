//! How the groups of an index follow what its map gives.
ghost use Rattle.std.specs.Prelude.{◌≡◌, ◌≤◌, ◌+◌, ◌*◌, ◌++◌, ◌∷◌, [], ℕ, List, None, false, IfOk, IfSome, OnOk, length, map, option_map};
ghost use Rattle.std.specs.BTreeMap.{is_at};
ghost use Rattle.std.specs.FinMap.{get};
ghost use Rattle.std.specs.List.{list_any};
ghost use Rattle.std.specs.Map.{lookup};
ghost use Rattle.std.specs.Option.{option_copied};
ghost use Rattle.spec_data.specs.Folding.{folded, same_key};
ghost use Rattle.index_definition.specs.DefinitionView.{automatic, definition_view};
ghost use Rattle.map_stage.specs.Words.{OutcomeHasWords};
ghost use Rattle.paged_map.specs.Merges.{MergesAtMost};
ghost use Rattle.reference_track.specs.Sets.{AreInOrder, id_cmp};
ghost use Rattle.index_groups.specs.Groups.{AreSmall, HaveWords, fields_of};
ghost use Rattle.reference_track.specs.Folded.{by_folded};
ghost use Rattle.index_version.specs.Reduced.{HasEntries, entries_at, fields_given, no_entries, reduce_of, with_entry};

use crate::auto_reduce::auto_reduce;
use crate::given::Given;
use crate::kept::Kept;
use crate::results::Results;
use index_definition::{DefBody, Definition, Shape};
use index_groups::IndexGroups;
use raven_base::{NoMemory, Shared, Steps};
use raven_value::Id;
use std::alloc::Global;
use std::sync::ledger::Ledger;

/// What the map has given, in groups by the key of the reduce.
pub type GivenGroups = IndexGroups<Shared<Given>>;

/// The groups of a definition for which no document is mapped yet, if it has a reduce.
pub fn no_groups(alloc: Global, definition: &Definition) -> Result<Option<GivenGroups>, NoMemory>
    ensures { IfOk result (λ groups. groups ≡ option_map no_entries (reduce_of (definition_view definition.now.body))) }
{
    match &definition.body {
        DefBody::Static { reduce, .. } => match reduce {
            Some(query) => Ok(Some(IndexGroups::new(alloc, query)?)),
            None => Ok(None),
        },
        DefBody::Auto(shape) => groups_by(alloc, shape),
    }
}

fn groups_by(alloc: Global, shape: &Shape) -> Result<Option<GivenGroups>, NoMemory>
    ensures { IfOk result (λ groups. groups ≡ option_map no_entries (reduce_of (automatic shape.now.collection shape.now.groups shape.now.fields))) }
{
    match &shape.groups {
        None => Ok(None),
        Some(groups) => {
            let query = auto_reduce(alloc, groups.as_slice(), shape.fields.as_slice())?;
            Ok(Some(IndexGroups::new(alloc, &query)?))
        }
    }
}

/// What is given for an id, if it has an entry.
fn entry_at<'a>(all: &'a Results, id: &Id) -> Option<&'a Shared<Given>>
    ensures entry { option_copied result ≡ with_entry (lookup (is_at (id_cmp id.now)) all.now) }
    ensures words { IfSome result (λ given. OutcomeHasWords given.now.mapped.outcome) }
{
    let given = all.get(id)?;
    if given.get().has_entry() {
        Some(given)
    } else {
        None
    }
}

/// Adds what is given for an id, if it has an entry.
fn add_entry_at(
    entries: &mut Vec<(Id, Shared<Given>)>,
    all: &Results,
    id: &Id,
) -> Result<(), NoMemory>
    ensures entries { OnOk result (entries.new.items ≡ entries.old.items ++ entries_at all.now (id.now ∷ [])) }
    ensures words { OnOk result (HaveWords (fields_of fields_given entries.old.items) → HaveWords (fields_of fields_given entries.new.items)) }
{
    if let Some(given) = entry_at(all, id) {
        entries.push((id.clone()?, given.clone()?))?;
    }
    Ok(())
}

/// What is given for these ids and has an entry.
fn entries_at(
    alloc: Global,
    all: &Results,
    ids: &[Id],
) -> Result<Vec<(Id, Shared<Given>)>, NoMemory>
    ensures entries { IfOk result (λ entries. entries.items ≡ entries_at all.now ids.now) }
    ensures words { IfOk result (λ entries. HaveWords (fields_of fields_given entries.items)) }
{
    let mut entries = Vec::new(alloc);
    for id in ids {
        add_entry_at(&mut entries, all, id)?;
    }
    Ok(entries)
}

/// The groups once what is given for these ids has changed, and for no others. The entries that these ids had go, and those that
/// they have come.
pub fn regrouped<L: Ledger>(
    alloc: Global,
    groups: &Option<GivenGroups>,
    before: &Kept,
    after: &Kept,
    ids: &[Id],
    steps: &mut Steps<L>,
) -> Result<Option<GivenGroups>, NoMemory>
    requires once { AreInOrder ids.now }
    requires others { (q : List ℕ) → list_any (same_key q) (map folded ids.now) ≡ false → get (by_folded after.now.given) q ≡ get (by_folded before.now.given) q }
    requires entries { IfSome groups.now (HasEntries (by_folded before.now.given)) }
    ensures queries { IfOk result (λ new. option_map (λ g. g.query) new ≡ option_map (λ g. g.query) groups.now) }
    ensures entries { IfOk result (λ new. IfSome new (HasEntries (by_folded after.now.given))) }
    ensures merges { IfOk result (λ new. (m h : ℕ) → length (entries_at before.now.given ids.now) ≤ m → length (entries_at after.now.given ids.now) ≤ m → 1 ≤ h → IfSome groups.now (AreSmall h) → IfSome new (AreSmall h) → MergesAtMost (128 * m * (h + 1)) steps.old steps.new) }
    ensures plain { groups.now ≡ None → steps.new.merges ≡ steps.old.merges }
    ensures maps { steps.new.maps ≡ steps.old.maps }
    ensures reads { steps.new.reads ≡ steps.old.reads }
{
    match groups {
        Some(groups) => {
            let gone = entries_at(alloc, &before.given, ids)?;
            let come = entries_at(alloc, &after.given, ids)?;
            Ok(Some(groups.changed(alloc, gone, come, steps)?))
        }
        None => Ok(None),
    }
}
