//! Whether an index lags behind the store.
ghost use Rattle.std.specs.Prelude.{◌≡◌};
ghost use Rattle.spec_store.specs.Stale.{stale};
ghost use Rattle.spec_index.specs.World.{reads};

use doc_store::Store;
use index_version::IndexVersion;

/// Whether the store holds something that the index reads and has not seen, up to a cutoff if one is given.
pub fn is_stale(store: &Store, version: &IndexVersion, cutoff: Option<u64>) -> bool
    ensures { result ≡ stale store.now (reads version.now.version) version.now.version.etag cutoff }
{
    store.stale(version.scope(), version.etag(), cutoff)
}
