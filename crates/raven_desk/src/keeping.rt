//! Asking a keeper to do what a change wants of it.
ghost use Rattle.std.specs.Prelude.{◌≡◌, ◌≢◌, ◌≤◌, ◌↔◌, [], None, IfNone, IfOk, IfSome, IsErrOf, OnErr, OnOk, option_map, true};
ghost use Rattle.spec_data.specs.Kept.{EtagsRise, all_kept, last_kept};
ghost use Rattle.spec_store.specs.Cleaning.{kept_by};
ghost use Rattle.raven_ports.specs.Faults.{Rose};
ghost use Rattle.raven_ports.specs.Plan.{is_failing, one_later};
ghost use Rattle.spec_desk.specs.Keepers.{IsKept};

use crate::course::{Asks, Pending};
use raven_base::NoMemory;
use raven_ports::{Keeper, KeeperFault};

// Asks the keeper for a change: to store its rows, or to remove them, which are tombstones.
#[tactic(auto, using(crate::proofs::Kept::answering))]
fn ask<K: Keeper>(keeper: &mut K, change: &Pending) -> Result<(), KeeperFault>
    requires rising { IfNone change.now.cleans (EtagsRise None (all_kept change.now.rows)) }
    requires past { IfNone change.now.cleans
        (IfSome (K.state keeper.old).held (λ all. EtagsRise (last_kept None all) (all_kept change.now.rows))) }
    ensures ok { OnOk result
        ((K.state keeper.new).held ≡ option_map (kept_by change.now.rows change.now.cleans) (K.state keeper.old).held) }
    ensures err { OnErr result ((K.state keeper.new).held ≡ (K.state keeper.old).held) }
    ensures planned { IfSome (K.state keeper.old).plan (λ p. IsErrOf result KeeperFault.Failed ↔ (is_failing p ≡ true)) }
    ensures called { (K.state keeper.new).plan ≡ option_map one_later (K.state keeper.old).plan }
    ensures later { (K.state keeper.old).count ≤ (K.state keeper.new).count }
    ensures cause { IsErrOf result KeeperFault.Failed → Rose (K.state keeper.old).count (K.state keeper.new).count }
{
    match &change.asks {
        Asks::Store(kept) => keeper.commit(kept),
        Asks::Clean(upto) => keeper.clean(*upto),
    }
}

/// Asks the keeper once if the change has rows, and returns whether it did what it was asked. If it did not, it holds what it held.
#[tactic(auto, using(crate::proofs::Kept::asking))]
pub(crate) fn keep<K: Keeper>(keeper: &mut K, change: &Pending) -> Result<bool, NoMemory>
    requires rising { IfNone change.now.cleans (EtagsRise None (all_kept change.now.rows)) }
    requires past { IfNone change.now.cleans
        (IfSome (K.state keeper.old).held (λ all. EtagsRise (last_kept None all) (all_kept change.now.rows))) }
    ensures asked { IfOk result (IsKept (K.state keeper.old) (K.state keeper.new) change.now.rows change.now.cleans) }
    ensures err { OnErr result ((K.state keeper.new).held ≡ (K.state keeper.old).held) }
    ensures asks { OnErr result (change.now.rows ≢ []) }
    ensures later { (K.state keeper.old).count ≤ (K.state keeper.new).count }
{
    if change.rows.is_empty() {
        return Ok(true);
    }
    match ask(keeper, change) {
        Ok(()) => Ok(true),
        Err(KeeperFault::Failed) => Ok(false),
        Err(KeeperFault::NoMemory) => Err(NoMemory),
    }
}
