//! Batches: how an index catches up.
ghost use Rattle.std.specs.Prelude.{◌≡◌, ◌+◌, ◌*◌, ◌≤◌, ℕ, IfOk, IfSome, None, cond, false, length, option_map};
ghost use Rattle.spec_store.specs.Stale.{batch_rows, stale};
ghost use Rattle.spec_store.specs.Store.{IsStore, last, last_of};
ghost use Rattle.index_tree.specs.Mapper.{mapper_of};
ghost use Rattle.spec_index.specs.Index.{Agrees};
ghost use Rattle.spec_index.specs.Mapping.{touched};
ghost use Rattle.spec_index.specs.World.{batch, reads};
ghost use Rattle.index_version.specs.Meaning.{Means};
ghost use Rattle.index_version.specs.Reduced.{HasSmallGroups, reduce_of};
ghost use Rattle.index_version.specs.Renewed.{touched_documents};

use doc_store::{Store, last_etag};
use index_version::IndexVersion;
use map_stage::Mapper;
use raven_base::{NoMemory, Shared, Steps};
use raven_value::Row;
use std::alloc::Global;
use std::sync::ledger::Ledger;
use std::thread::Threads;

fn etag_after(taken: &[Shared<Row>], more: bool, store: &Store) -> u64
    ensures { result ≡ cond more (last_of 0 taken.now) (last store.now) }
{
    if more { last_etag(taken) } else { store.last() }
}

/// The index after the first `max` rows that it has not seen, or nothing if there are none.
/// Its etag is that of the last of them if more remain, else the store's last.
///
/// The mapper maps the documents that these rows touch, each at most once, and no others; many documents are mapped by several
/// threads, with the same result as by one. For each row that is taken, and once
/// more, at most one row of each collection that the index reads is read. Entries are merged only if the definition has a reduce:
/// the clause bounds how often, if no group has more than 16^h entries before or after. For an index that is not stale nothing
/// is counted and no row is read: one search for each of these collections finds that.
pub fn next<R: Threads + Sync, M: Mapper + Sync, L: Ledger>(
    rt: &R,
    alloc: Global,
    index: &IndexVersion,
    store: &Store,
    mapper: &M,
    max: u32,
    steps: &mut Steps<L>,
) -> Result<Option<IndexVersion>, NoMemory>
    requires means { Means (M.meaning mapper.now) index.now.version.definition }
    ensures name { IfOk result (λ next. IfSome next (λ new. new.name ≡ index.now.name)) }
    ensures next { IfOk result (λ next. option_map (λ new. new.version) next ≡ batch index.now.version store.now max) }
    ensures maps { let v = index.now.version in steps.new.maps ≤ steps.old.maps + length (touched_documents v (batch_rows (reads v) v.etag store.now max)) }
    ensures plain { reduce_of index.now.version.definition ≡ None → steps.new.merges ≡ steps.old.merges }
    ensures merges { IfOk result (λ next. let v = index.now.version in (h : ℕ) → 1 ≤ h → IsStore store.now → Agrees (reads v) v.table store.now v.etag → HasSmallGroups h v → IfSome next (λ new. HasSmallGroups h new.version) →
        steps.new.merges ≤ steps.old.merges + 128 * length (touched (mapper_of v.definition) v.table (batch_rows (reads v) v.etag store.now max)) * (h + 1)) }
    ensures reads { let v = index.now.version in steps.new.reads ≤ steps.old.reads + (length (batch_rows (reads v) v.etag store.now max) + 1) * length (reads v) }
    ensures idle { let v = index.now.version in stale store.now (reads v) v.etag None ≡ false → steps.new ≡ steps.old }
{
    let scope = index.scope();
    let seen = index.etag();
    if !store.stale(scope, seen, None) {
        return Ok(None);
    }
    let (taken, more) = store.rows_after(alloc, seen, scope, max, steps)?;
    if taken.is_empty() {
        return Ok(None);
    }
    let etag = etag_after(taken.as_slice(), more, store);
    let cleaned = store.cleaned();
    let next = index.after(rt, alloc, taken.as_slice(), etag, cleaned, mapper, steps)?;
    Ok(Some(next))
}
