//! Which ids a batch touches.
ghost use Rattle.std.specs.Prelude.{◌≡◌, ◌||◌, ℕ, List, IfOk};
ghost use Rattle.std.specs.List.{list_any};
ghost use Rattle.spec_data.specs.Folding.{folded};
ghost use Rattle.spec_index.specs.Mapping.{is_in_batch};
ghost use Rattle.reference_track.specs.Sets.{AreInOrder, is_one_of};
ghost use Rattle.reference_track.specs.Tracks.{is_pair};

use raven_base::{NoMemory, Shared};
use raven_value::{Id, Ids, Row};
use reference_track::{IdSet, Referrers};
use std::alloc::Global;

/// The taken ids, of whatever collection, and those that load one of them, each once.
pub fn touched_ids(
    alloc: Global,
    referrers: &Referrers,
    taken: &[Shared<Row>],
) -> Result<Ids, NoMemory>
    ensures ids { IfOk result (λ ids. (x : List ℕ) → is_one_of x ids ≡ is_in_batch taken.now (folded x) || list_any (λ r. is_pair x r.id referrers.now) taken.now) }
    ensures once { IfOk result (λ ids. AreInOrder ids) }
{
    let loading = all_loading(alloc, referrers, taken)?;
    with_taken(alloc, loading, taken)?.ids(alloc)
}

fn all_loading(
    alloc: Global,
    referrers: &Referrers,
    taken: &[Shared<Row>],
) -> Result<IdSet, NoMemory>
    ensures { IfOk result (λ set. (x : List ℕ) → is_one_of x set ≡ list_any (λ r. is_pair x r.id referrers.now) taken.now) }
{
    let mut set = IdSet::new(alloc)?;
    for row in taken {
        let loading = referrers.of(alloc, &row.get().id)?.ids(alloc)?;
        set = with_all(alloc, set, loading.as_slice())?;
    }
    Ok(set)
}

fn with_all(alloc: Global, set: IdSet, ids: &[Id]) -> Result<IdSet, NoMemory>
    ensures { IfOk result (λ new. (x : List ℕ) → is_one_of x new ≡ is_one_of x ids.now || is_one_of x set) }
{
    let mut new = set;
    for id in ids {
        new = new.put(alloc, id)?;
    }
    Ok(new)
}

fn with_taken(alloc: Global, set: IdSet, taken: &[Shared<Row>]) -> Result<IdSet, NoMemory>
    ensures { IfOk result (λ new. (x : List ℕ) → is_one_of x new ≡ is_in_batch taken.now (folded x) || is_one_of x set) }
{
    let mut new = set;
    for row in taken {
        new = new.put(alloc, &row.get().id)?;
    }
    Ok(new)
}
