//! What workers read and publish.

ghost use Rattle.std.specs.Prelude.{◌≡◌, ℕ, List, Ok};
ghost use Rattle.spec_index.specs.World.{World};
ghost use Rattle.spec_server.specs.Requests.{Keeping, Publish, Read};
ghost use Rattle.spec_server.specs.Courses.{Held, Machine};
ghost use Rattle.spec_server.specs.Workers.{published};
ghost use Rattle.spec_server.specs.Machine.{step};
ghost use Rattle.spec_server.specs.Sound.{IsHeld, LaterW, Sound};
ghost use Rattle.raven_laws.specs.Workers.{IsPublishAnswer, IsReadAnswer};

/// A READ of a name that no index serves changes nothing. Otherwise the worker holds the batch for that index and nothing that it held before,
/// or nothing if there is nothing to read. No index changes, and the other workers hold what they held.
pub fn reads_are_answered()
    ensures { (M : Machine) (k : Keeping) (now worker max : ℕ) (name : List ℕ) →
        IsReadAnswer M worker max name (step M k now (Read worker max name)) }
{}

/// A PUBLISH of a worker that holds nothing changes nothing. Otherwise the worker then holds nothing, and the other workers hold what they
/// held. If the index of the batch is gone, or as far already, or tombstones past the batch were cleaned since it was read, no index
/// changes. If not, the version of the batch takes the place of the index's, and all other indexes, the store and the notes stay as they
/// were.
pub fn publications_are_answered()
    ensures { (M : Machine) (k : Keeping) (now worker : ℕ) → IsPublishAnswer M worker (step M k now (Publish worker)) }
{}

/// The world in which a held batch is published is sound, and later than the one before.
pub fn publications_go_on()
    ensures sound { (W V : World) (h : Held) → Sound W → IsHeld W h → published W h.number h.version ≡ Ok V → Sound V }
    ensures later { (W V : World) (h : Held) → Sound W → IsHeld W h → published W h.number h.version ≡ Ok V → LaterW W V }
{}
