//! How far an index has come.
ghost use Rattle.std.specs.Prelude.{◌≡◌, ◌+◌, ◌*◌, ◌≤◌, ℕ, List, None, IfOk, find, length, map, option_map};
ghost use Rattle.std.specs.List.{slice_get};
ghost use Rattle.std.specs.Option.{option_and_then};
ghost use Rattle.raven_base.specs.Counts.{one_read_more};
ghost use Rattle.spec_data.specs.Folding.{folded};
ghost use Rattle.spec_data.specs.Tables.{note_rows};
ghost use Rattle.spec_index.specs.Mapping.{failures, scratch, touched};
ghost use Rattle.index_tree.specs.Mapper.{mapper_of};
ghost use Rattle.spec_index.specs.World.{new_version, reads};
ghost use Rattle.index_definition.specs.DefinitionView.{definition_view};
ghost use Rattle.index_tree.specs.Meaning.{field_named};
ghost use Rattle.reference_track.specs.Sets.{AreInOrder};
ghost use Rattle.term_index.specs.Columns.{value_at};
ghost use Rattle.index_version.specs.Entries.{all_entries, entry_at, is_past};
ghost use Rattle.index_version.specs.Meaning.{Means};
ghost use Rattle.index_version.specs.Reduced.{HasSmallGroups, KeepCollections, reduce_of, rows_of};
ghost use Rattle.index_version.specs.Renewed.{touched_documents};
ghost use Rattle.index_version.specs.Together.{in_groups, in_version};

use crate::kept::Kept;
use crate::regrouping::{GivenGroups, no_groups, regrouped};
use crate::renewal::renewed;
use crate::table::Table;
use crate::terms::{no_terms, retermed};
use crate::touched::touched_ids;
use index_definition::{Definition, scope};
use map_stage::{Entry, Mapper};
use raven_base::{NoMemory, Sequence, Shared, Steps};
use raven_value::{Id, Ids, Row, Scope};
use std::alloc::Global;
use std::marker::Model;
use std::sync::Arc;
use std::sync::ledger::Ledger;
use std::thread::Threads;
use term_index::Terms;

/// The same definition, shared.
fn share(definition: &Arc<Definition>) -> Result<Arc<Definition>, NoMemory>
    ensures { IfOk result (λ shared. shared.value ≡ definition.now.value) }
{
    Ok(definition.clone()?)
}

/// An index as far as it has come, seen by contracts as its definition with its name, its etag and the documents that it has
/// recorded.
/// Its entries are those that its map gives over these documents from scratch, and its errors those that fail there. If the
/// definition has a reduce, its rows are those that the reduce gives for these entries.
pub struct IndexVersion {
    definition: Arc<Definition>,
    scope: Scope,
    etag: u64,
    table: Table,
    kept: Kept,
    groups: Option<GivenGroups>,
    terms: Terms,
    /// The etag up to which the store that it read last was cleaned of tombstones, or 0.
    cleaned: u64,
}

// Opaque drop: see raven_base.
impl Drop for IndexVersion {
    fn drop(self) {
        let IndexVersion {
            definition: _definition,
            scope: _scope,
            etag: _etag,
            table: _table,
            kept: _kept,
            groups: _groups,
            terms: _terms,
            cleaned: _cleaned,
        } = self;
    }
}

impl Model for IndexVersion {
    ghost use Rattle.index_version.specs.Named.{NamedVersion, named_version_code};
    ghost use Rattle.std.specs.Prelude.{◌≡◌};
    ghost use Rattle.index_tree.specs.Mapper.{mapper_of, scope_of};
    ghost use Rattle.reference_track.specs.Folded.{by_folded};
    ghost use Rattle.index_version.specs.Kept.{AreKept};
    ghost use Rattle.index_version.specs.Reduced.{AreReduced, reduce_of};
    ghost use Rattle.index_version.specs.Termed.{AreTermed};

    ghost Value = { NamedVersion };

    ghost coded = { named_version_code };

    ghost use Rattle.index_definition.specs.DefinitionView.{definition_view};

    ghost view = { λ a. record {
      name = a.definition.value.name;
      version = record { definition = definition_view a.definition.value.body; etag = a.etag; table = a.table; cleaned = a.cleaned };
    } };

    ghost invariant = { λ a. AreKept (mapper_of (definition_view a.definition.value.body)) a.table (by_folded a.kept.given) a.kept.referrers × AreReduced (reduce_of (definition_view a.definition.value.body)) (by_folded a.kept.given) a.groups × AreTermed a.definition.value.body (by_folded a.kept.given) a.terms × (a.scope ≡ scope_of (mapper_of (definition_view a.definition.value.body))) };
}

impl IndexVersion {
    /// An index that has recorded nothing yet.
    pub fn fresh(alloc: Global, definition: Arc<Definition>) -> Result<IndexVersion, NoMemory>
        ensures name { IfOk result (λ index. index.name ≡ definition.value.name) }
        ensures version { IfOk result (λ index. index.version ≡ new_version (definition_view definition.value.body)) }
    {
        let groups = no_groups(alloc, &definition)?;
        let terms = no_terms(alloc, &definition, groups.is_some())?;
        let scope = scope(alloc, &definition)?;
        Ok(IndexVersion {
            definition,
            scope,
            etag: 0,
            table: Table::new(alloc)?,
            kept: Kept::new(alloc)?,
            groups,
            terms,
            cleaned: 0,
        })
    }

    /// The index once it has taken these rows, at an etag, of a store that was cleaned of tombstones up to `cleaned`.
    ///
    /// The map is asked for the documents that these rows touch, each at most once, and for no others: for those that are taken,
    /// and for those that have looked a taken id up. Time and memory grow with the number of these, times the logarithm of the
    /// number of documents. If there are many documents to map, as many threads as there are processors map them; what comes of it
    /// is what comes of one thread. If the definition has a reduce, rows are merged on the way from each changed entry to the root of the
    /// tree of its group; if not, none are.
    pub fn after<R: Threads + Sync, M: Mapper + Sync, L: Ledger>(
        &self,
        rt: &R,
        alloc: Global,
        taken: &[Shared<Row>],
        etag: u64,
        cleaned: u64,
        mapper: &M,
        steps: &mut Steps<L>,
    ) -> Result<IndexVersion, NoMemory>
        requires means { Means (M.meaning mapper.now) self.now.version.definition }
        ensures name { IfOk result (λ index. index.name ≡ self.now.name) }
        ensures version { IfOk result (λ index. index.version ≡ record self.now.version { etag = etag; table = note_rows self.now.version.table taken.now; cleaned = cleaned }) }
        ensures maps { steps.new.maps ≤ steps.old.maps + length (touched_documents self.now.version taken.now) }
        ensures reads { steps.new.reads ≡ steps.old.reads }
        ensures plain { reduce_of self.now.version.definition ≡ None → steps.new.merges ≡ steps.old.merges }
        ensures merges { IfOk result (λ index. (h : ℕ) → 1 ≤ h → KeepCollections (mapper_of self.now.version.definition) self.now.version.table taken.now → HasSmallGroups h self.now.version → HasSmallGroups h index.version →
            steps.new.merges ≤ steps.old.merges + 128 * length (touched (mapper_of self.now.version.definition) self.now.version.table taken.now) * (h + 1)) }
    {
        let scope = self.scope.clone()?;
        let definition = &self.definition;
        let ids = touched_ids(alloc, &self.kept.referrers, taken)?;
        let table = self.table.after(alloc, taken)?;
        let ids = ids.as_slice();
        let kept = renewed(
            rt, alloc, &self.kept, ids, &table, definition, mapper, steps,
        )?;
        let groups = regrouped(alloc, &self.groups, &self.kept, &kept, ids, steps)?;
        let terms = retermed(
            alloc,
            &self.terms,
            self.groups.is_some(),
            &self.kept.given,
            &kept.given,
            ids,
        )?;
        Ok(IndexVersion {
            definition: share(definition)?,
            scope,
            etag,
            table,
            kept,
            groups,
            terms,
            cleaned,
        })
    }

    /// The etag up to which it has recorded what it reads.
    pub fn etag(&self) -> u64
        ensures { result ≡ self.now.version.etag }
    {
        self.etag
    }

    /// The etag up to which the store that it read last was cleaned of tombstones. It is 0 if it has read nothing.
    pub fn cleaned(&self) -> u64
        ensures { result ≡ self.now.version.cleaned }
    {
        self.cleaned
    }

    /// The definition.
    pub fn definition(&self) -> &Arc<Definition>
        ensures name { result.now.value.name ≡ self.now.name }
        ensures body { definition_view result.now.value.body ≡ self.now.version.definition }
    {
        &self.definition
    }

    /// The documents that it has recorded.
    pub fn table(&self) -> &Table
        ensures { result.now ≡ self.now.version.table }
    {
        &self.table
    }

    /// The collections that it reads.
    pub fn scope(&self) -> &Scope
        ensures { result.now ≡ reads self.now.version }
    {
        &self.scope
    }

    /// How many entries it has. The number is kept.
    pub fn entries(&self) -> u64
        ensures { result ≡ length (scratch (mapper_of self.now.version.definition) self.now.version.table) }
    {
        self.kept.entries()
    }

    /// How many of its documents have no entry because their map failed. The number is kept.
    pub fn errors(&self) -> u64
        ensures { result ≡ failures (mapper_of self.now.version.definition) self.now.version.table }
    {
        self.kept.errors()
    }

    /// The values of the fields of all its entries, by which those that meet a test are found. If the definition has a reduce, it has none:
    /// a query on it reads its rows.
    pub fn terms(&self) -> &Terms
        ensures order { AreInOrder (map (λ e. e.0) (all_entries self.now.version)) }
        ensures values { reduce_of self.now.version.definition ≡ None → (field q : List ℕ) → value_at field q result.now ≡ option_and_then (λ e. field_named field e.1) (entry_at self.now.version q) }
    {
        &self.terms
    }

    /// The ids of the documents that have entries, in order.
    pub fn ids(&self, alloc: Global) -> Result<Ids, NoMemory>
        ensures { IfOk result (λ ids. ids ≡ map (λ e. e.0) (all_entries self.now.version)) }
    {
        Ok(self.kept.ids(alloc)?)
    }

    /// The entry of a document, if it has one, under the id as the document spells it. It counts as a row read.
    pub fn entry_of<L: Ledger>(&self, id: &Id, steps: &mut Steps<L>) -> Option<(&Id, &Entry)>
        ensures entry { option_map (λ e. (e.0.now, e.1.now)) result ≡ entry_at self.now.version (folded id.now) }
        ensures read { steps.new ≡ one_read_more steps.old }
    {
        steps.row_read();
        self.kept.entry_of(id)
    }

    /// The first entry whose document has an id past this one, or the first of all if there is no id. It counts as a row read, and
    /// passes over documents without an entry.
    pub fn entry_after<L: Ledger>(
        &self,
        id: Option<&Id>,
        steps: &mut Steps<L>,
    ) -> Option<(&Id, &Entry)>
        ensures entry { option_map (λ e. (e.0.now, e.1.now)) result ≡ find (λ e. is_past (option_map (λ i. folded i.now) id.entry) e.0) (all_entries self.now.version) }
        ensures read { steps.new ≡ one_read_more steps.old }
    {
        steps.row_read();
        self.kept.entry_after(id)
    }

    /// How many documents a walk over all entries passes, those without an entry too.
    pub fn walk_len(&self) -> u64
        ensures { length (all_entries self.now.version) ≤ result }
    {
        self.kept.len()
    }

    /// Its entries in groups, if the definition has a reduce.
    pub(crate) fn given_groups(&self) -> Option<&GivenGroups>
        ensures { option_map (λ g. in_groups g.now) result ≡ in_version self.now.version }
    {
        match &self.groups {
            Some(groups) => Some(groups),
            None => None,
        }
    }

    /// How many rows it has, 0 if the definition has no reduce.
    pub fn groups(&self) -> u64
        ensures { result ≡ length (rows_of self.now.version.definition self.now.version.table) }
    {
        match &self.groups {
            Some(groups) => groups.len(),
            None => 0,
        }
    }

    /// The row at a place in the order of the keys. There is none if there are no more rows than that. It walks to that place.
    pub fn row(&self, alloc: Global, place: u64) -> Result<Option<Entry>, NoMemory>
        ensures { IfOk result (λ row. row ≡ slice_get (rows_of self.now.version.definition self.now.version.table) place) }
    {
        match &self.groups {
            Some(groups) => groups.row(alloc, place),
            None => Ok(None),
        }
    }

    /// The rows that the reduce gives for its entries, in the order of their keys; none if the definition has no reduce.
    pub fn rows(&self, alloc: Global) -> Result<Sequence<Entry>, NoMemory>
        ensures { IfOk result (λ rows. rows ≡ rows_of self.now.version.definition self.now.version.table) }
    {
        match &self.groups {
            Some(groups) => groups.rows(alloc),
            None => Ok(Sequence::new(alloc)),
        }
    }
}
