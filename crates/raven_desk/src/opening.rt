//! Opening a database of what its keeper holds.
ghost use Rattle.std.specs.Prelude.{◌≡◌, ◌≤◌, IfErr, IfOk, IsErrOf};
ghost use Rattle.spec_server.specs.Options.{setting_with};
ghost use Rattle.raven_ports.specs.Faults.{Rose};
ghost use Rattle.spec_desk.specs.Keepers.{Keeps};
ghost use Rattle.spec_desk.specs.Lived.{machine_in};
ghost use Rattle.spec_server.specs.Machine.{machine_of};
ghost use Rattle.raven_desk.specs.Openings.{Loads, NamesBadRow, Opens};

use crate::live::Live;
use doc_keeper::{LoadFault, load};
use doc_store::OpenFault;
use doc_txn::{BaseId, Limits};
use raven_base::Shared;
use raven_ports::Keeper;
use raven_world::World;
use std::alloc::Global;

/// A keeper whose rows were not opened. It holds what it held.
#[derive(Drop)]
pub struct Unopened<K> {
    pub keeper: K,

    /// Why its rows were not opened.
    pub fault: LoadFault,
}

// The world of the rows that the keeper gives.
#[tactic(auto, using(crate::proofs::Opened::opening))]
fn load_world<K: Keeper>(
    alloc: Global,
    keeper: &mut K,
    base: BaseId,
) -> Result<Shared<World>, LoadFault>
    ensures opens { IfOk result (λ world. Opens (setting_with base) (K.state keeper.old).held (machine_of world)) }
    ensures keeps { IfOk result (λ world. Keeps (K.state keeper.new).held (machine_of world)) }
    ensures bad { IfErr result (λ fault. NamesBadRow (setting_with base) (K.state keeper.old).held fault) }
    ensures fault { IsErrOf result LoadFault.Failed → Rose (K.state keeper.old).count (K.state keeper.new).count }
    ensures loads { Loads (K.state keeper.old) (K.state keeper.new) }
{
    let limits = Limits::program();
    let (rows, store) = match load(alloc, keeper, &limits) {
        Ok(loaded) => loaded,
        Err(fault) => return Err(fault),
    };
    match World::open(alloc, &rows, store, base, limits) {
        Ok(world) => Ok(Shared::of(alloc, world)?),
        Err(OpenFault::KeptBad { etag }) => Err(LoadFault::KeptBad { etag }),
        Err(OpenFault::NoMemory) => Err(LoadFault::NoMemory),
    }
}

impl<K: Keeper> Live<K> {
    /// The database of the rows that the keeper holds.
    ///
    /// A row is bad as `doc_keeper::load` and `World::open` say. Its world has the program's limits.
    pub fn open(alloc: Global, keeper: K, base: BaseId) -> Result<Live<K>, Unopened<K>>
        ensures opens { IfOk result (λ live. Opens (setting_with base) (K.state keeper).held (machine_in live)) }
        ensures loads { IfOk result (λ live. Loads (K.state keeper) live.keeper) }
        ensures fronts { IfOk result (λ live. live.fronts ≡ 0) }
        ensures bad { IfErr result (λ u. NamesBadRow (setting_with base) (K.state keeper).held u.fault) }
        ensures fault { IfErr result (λ u. u.fault ≡ LoadFault.Failed → Rose (K.state keeper).count (K.state u.keeper).count) }
        ensures unopened { IfErr result (λ u. Loads (K.state keeper) (K.state u.keeper)) }
    {
        let mut keeper = keeper;
        match load_world(alloc, &mut keeper, base) {
            Ok(world) => Ok(Live {
                world,
                keeper,
                fronts: 0,
            }),
            Err(fault) => Err(Unopened { keeper, fault }),
        }
    }
}
