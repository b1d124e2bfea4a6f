//! Cleaning: the tombstones up to an etag are taken out of a store.
#![tactic(auto)]

ghost use Rattle.std.specs.Prelude.{◌≡◌, ◌≤◌, ◌-◌, IfOk};
ghost use Rattle.spec_store.specs.Store.{last};
ghost use Rattle.spec_store.specs.Cleaning.{clean as spec_clean, old_tombstones};

use doc_store::Store;
use raven_base::NoMemory;
use raven_value::Rows;
use std::alloc::Global;

/// What a cleaning leaves, and what it took out.
#[derive(Drop)]
pub struct Cleaned {
    pub store: Store,
    /// The tombstones that are gone, in order of etag.
    pub gone: Rows,
}

/// The store without its tombstones up to an etag, which is below its last. If it has none of these, it stays as it is, and what
/// was cleaned before stays so.
pub fn clean(alloc: Global, store: &Store, upto: u64) -> Result<Cleaned, NoMemory>
    requires { upto ≤ last store.now - 1 }
    ensures left { IfOk result (λ cleaned. cleaned.store ≡ spec_clean upto store.now) }
    ensures gone { IfOk result (λ cleaned. cleaned.gone ≡ old_tombstones upto store.now.rows) }
{
    let gone = store.old_tombstones(alloc, upto)?;
    if gone.is_empty() {
        return Ok(Cleaned {
            store: store.clone()?,
            gone,
        });
    }
    let left = store.without(alloc, &gone, upto)?;
    Ok(Cleaned { store: left, gone })
}
