//! What stores the rows of a database, and what gives the time.
ghost use Rattle.std.specs.Prelude.{◌≡◌, ◌<◌, ◌≤◌, ◌↔◌, ℕ, length, true, Option, None, option_map, IfOk, IfSome, OnErr, OnOk, IsErrOf};
ghost use Rattle.spec_data.specs.Kept.{EtagsRise, keep_all, kept_after, last_kept};
ghost use Rattle.spec_data.specs.Limits.{moments_end};
ghost use Rattle.spec_store.specs.Cleaning.{cleared};
ghost use Rattle.raven_ports.specs.Faults.{Rose};
ghost use Rattle.raven_ports.specs.Plan.{is_failing, one_later};
ghost use Rattle.raven_ports.specs.States.{KeeperState};

use raven_base::{Exact, Sequence};
use raven_value::Text;
use std::alloc::{AllocError, Global};
use std::marker::Model;
use thiserror::Error;

/// A row as it is stored.
pub struct KeptRow {
    pub etag: u64,

    /// As it was spelled when the row was first written.
    pub id: Text,

    pub collection: Text,

    /// The text of the document, or none for a tombstone.
    pub body: Option<Text>,

    /// When it was written, in microseconds since 1970 in UTC.
    pub changed: u64,
}

// Opaque drop: see raven_base.
impl Drop for KeptRow {
    fn drop(self) {
        let KeptRow {
            etag: _etag,
            id: _id,
            collection: _collection,
            body: _body,
            changed: _changed,
        } = self;
    }
}

impl Model for KeptRow {
    ghost use Rattle.spec_data.specs.Kept as kept;
    ghost use Rattle.spec_data.specs.Kept.{kept_code};

    ghost Value = { kept.KeptRow };

    ghost coded = { kept_code };

    ghost view = { λ a. record { etag = a.etag; id = a.id; collection = a.collection; body = a.body; changed = a.changed } };
}

impl Clone for KeptRow {
    ghost is_clone = { λ s t. t ≡ s };

    fn clone(&self) -> Result<KeptRow, AllocError> {
        Ok(KeptRow {
            etag: self.etag,
            id: self.id.clone()?,
            collection: self.collection.clone()?,
            body: self.body.clone()?,
            changed: self.changed,
        })
    }
}

impl Exact for KeptRow {
    ghost exact = { λ x y same. same };
}

/// Stored rows in order.
pub type KeptRows = Sequence<KeptRow>;

/// Why a call of a keeper failed. The keeper holds what it held before.
#[derive(Clone, Copy, Debug, Error)]
pub enum KeeperFault {
    /// The call failed, and the keeper's count of faults rose.
    #[error("the keeper failed")]
    Failed,

    /// It ran out of memory.
    #[error("no memory was found")]
    NoMemory,
}

/// What stores the rows of a database, one for each id, in order of etag.
pub trait Keeper {
    /// The rows that it holds and which of its calls fail, if it reports them, and how often it has failed. Loads, commits and
    /// cleanings are counted together.
    ghost state: { Self → KeeperState };

    /// How often it has failed.
    fn faults(&self) -> u64
        ensures { result ≡ (state self.now).count };

    /// The first rows with etags past `after`, or with any etags if it is `None`, in order of etag, and at most `max`.
    fn load(&mut self, alloc: Global, after: Option<u64>, max: u32) -> Result<KeptRows, KeeperFault>
        requires { 1 ≤ max }
        ensures rows { IfOk result (λ r. IfSome (state self.old).held (λ all. r ≡ kept_after after max all)) }
        ensures rising { IfOk result (λ r. EtagsRise after r) }
        ensures most { IfOk result (λ r. length r ≤ max) }
        ensures order { IfOk result (λ _. IfSome (state self.old).held (λ all. EtagsRise None all)) }
        ensures same { (state self.new).held ≡ (state self.old).held }
        ensures planned { IfSome (state self.old).plan (λ p. IsErrOf result KeeperFault.Failed ↔ (is_failing p ≡ true)) }
        ensures called { (state self.new).plan ≡ option_map one_later (state self.old).plan }
        ensures later { (state self.old).count ≤ (state self.new).count }
        ensures cause { IsErrOf result KeeperFault.Failed → Rose (state self.old).count (state self.new).count };

    /// Puts each row in place of the row of its id, or after the others: all of them, or none.
    /// Their etags rise, and are past those of all rows that it holds.
    fn commit(&mut self, rows: &KeptRows) -> Result<(), KeeperFault>
        requires rising { EtagsRise None rows.now }
        requires past { IfSome (state self.old).held (λ all. EtagsRise (last_kept None all) rows.now) }
        ensures ok { OnOk result ((state self.new).held ≡ option_map (λ all. keep_all all rows.now) (state self.old).held) }
        ensures err { OnErr result ((state self.new).held ≡ (state self.old).held) }
        ensures planned { IfSome (state self.old).plan (λ p. IsErrOf result KeeperFault.Failed ↔ (is_failing p ≡ true)) }
        ensures called { (state self.new).plan ≡ option_map one_later (state self.old).plan }
        ensures later { (state self.old).count ≤ (state self.new).count }
        ensures cause { IsErrOf result KeeperFault.Failed → Rose (state self.old).count (state self.new).count };

    /// Removes the tombstones with etags of at most `upto`: all of them, or none.
    fn clean(&mut self, upto: u64) -> Result<(), KeeperFault>
        ensures ok { OnOk result ((state self.new).held ≡ option_map (cleared upto) (state self.old).held) }
        ensures err { OnErr result ((state self.new).held ≡ (state self.old).held) }
        ensures planned { IfSome (state self.old).plan (λ p. IsErrOf result KeeperFault.Failed ↔ (is_failing p ≡ true)) }
        ensures called { (state self.new).plan ≡ option_map one_later (state self.old).plan }
        ensures later { (state self.old).count ≤ (state self.new).count }
        ensures cause { IsErrOf result KeeperFault.Failed → Rose (state self.old).count (state self.new).count };
}

/// What gives the time.
pub trait Clock {
    /// The one moment that it gives, if it stands still.
    ghost moment: { Self → Option ℕ };

    /// Microseconds since 1970 in UTC, before the year 9999.
    fn now(&self) -> u64
        ensures below { result < moments_end }
        ensures still { IfSome (moment self.now) (λ m. result ≡ m) };

    /// Waits a while.
    fn nap(&self);
}
