//! What a cleaning removes, and what it leaves.

ghost use Rattle.std.specs.Prelude.{◌≡◌, ◌↔◌, ◌⊎◌, ◌≤◌, ℕ, List, Some};
ghost use Rattle.spec_data.specs.Rows.{Row};
ghost use Rattle.spec_store.specs.Store.{IsStore, Store, last, row_at};
ghost use Rattle.spec_store.specs.Later.{Later, StillHas};
ghost use Rattle.spec_index.specs.Cleaning.{clean_upto, cleaned_world};
ghost use Rattle.spec_index.specs.World.{Version, World};
ghost use Rattle.spec_server.specs.Requests.{AreFromClients, Event, Keeping};
ghost use Rattle.spec_server.specs.Courses.{Machine};
ghost use Rattle.spec_server.specs.Machine.{run};
ghost use Rattle.spec_server.specs.Sound.{Fits, IsMachine, LaterW, Sound};
ghost use Rattle.raven_laws.specs.Cleaning.{CleanIsAnswered, IsReached, Stands, WasDeleted};

/// In a sound state a cleaning removes exactly the tombstones up to its etag, or the keeper fails and nothing changes. All other rows, the
/// etag of the last row, the indexes and what workers hold stay as they were.
pub fn cleanings_are_answered()
    ensures { (M : Machine) (k : Keeping) (now : ℕ) → Sound M.world → CleanIsAnswered M k now }
{}

/// The etag up to which tombstones go is the greatest that each index which has read something has reached, below that of the last row.
pub fn cleanings_go_as_far_as_indexes()
    ensures { (W : World) (n : ℕ) → IsReached W n ↔ (n ≤ clean_upto W) }
{}

/// The world that a cleaning leaves is sound and later. The row with the greatest etag stays.
pub fn cleanings_go_on()
    ensures sound { (W : World) → Sound W → Sound (cleaned_world W) }
    ensures later { (W : World) → Sound W → LaterW W (cleaned_world W) }
    ensures last { (W : World) (q : List ℕ) (r : Row) → Sound W → row_at q W.store.rows ≡ Some r → r.etag ≡ last W.store →
        row_at q (cleaned_world W).store.rows ≡ Some r }
{}

/// An index that has read nothing fits every store, whatever was cleaned of it.
pub fn unread_indexes_need_no_tombstones()
    ensures { (S N : Store) (v : Version) → IsStore N → Fits S v → v.etag ≡ 0 → Fits N v }
{}

/// The etag of the last row never falls.
pub fn last_etags_never_fall()
    ensures { (M : Machine) (events : List Event) → IsMachine M → AreFromClients events → last M.world.store ≤ last (run events M).world.store }
{}

/// Nothing that was written is lost: its id still has a row, or in a state on the way it had a tombstone, which was cleaned.
pub fn only_deletions_are_cleaned()
    ensures { (M : Machine) (events : List Event) (q : List ℕ) (r : Row) → IsMachine M → AreFromClients events →
        row_at q M.world.store.rows ≡ Some r → StillHas (run events M).world.store.rows q r ⊎ WasDeleted M events q }
{}

/// A row stands in each later store, or its id has a newer one, or the store was cleaned at least up to the row.
pub fn rows_stand_unless_cleaned()
    ensures { (S N : Store) (q : List ℕ) (r : Row) → IsStore S → Later S N → row_at q S.rows ≡ Some r → Stands N q r }
{}
