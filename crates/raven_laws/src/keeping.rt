//! What a keeper stores for a store, and for a machine.

ghost use Rattle.std.specs.Prelude.{◌≡◌, ℕ, List, None};
ghost use Rattle.spec_data.specs.Rows.{Row};
ghost use Rattle.spec_data.specs.Kept.{EtagsRise, all_kept, keep_all, last_kept};
ghost use Rattle.spec_store.specs.Commit.{AreNext};
ghost use Rattle.spec_server.specs.Requests.{Event, Line};
ghost use Rattle.spec_server.specs.Courses.{Machine};
ghost use Rattle.spec_server.specs.Machine.{changes_of, run};
ghost use Rattle.spec_server.specs.Script.{Given, after_lines, events_of};
ghost use Rattle.spec_store.specs.Store.{IsStore, Store, last, with_rows};
ghost use Rattle.spec_index.specs.World.{World};
ghost use Rattle.raven_laws.specs.Keeping.{AreTheirRows, stored_after};

/// A keeper that stores the rows of a store and is given further rows stores those of the store with them. If the etags of the further rows
/// go on from the store's last, they are in order after what it stores.
pub fn keepers_follow_stores()
    ensures holds { (S : Store) (rows : List Row) → keep_all (all_kept S.rows) (all_kept rows) ≡ all_kept (with_rows S rows).rows }
    ensures rises { (S : Store) (rows : List Row) → AreNext (last S) rows → EtagsRise (last_kept None (all_kept S.rows)) (all_kept rows) }
    ensures alone { (e : ℕ) (rows : List Row) → AreNext e rows → EtagsRise None (all_kept rows) }
    ensures whole { (S : Store) → IsStore S → EtagsRise None (all_kept S.rows) }
{}

/// The store of each change that a line makes is the one before it with the rows of the change, whose etags go on from the store's last;
/// or if it cleans, the one before it without the rows of the change, which are its tombstones up to an etag below its last. If there are
/// none, the store is as it was.
pub fn changes_are_their_rows()
    ensures { (W : World) (now : ℕ) (line : Line) → AreTheirRows W.store (changes_of W now line) }
{}

/// A keeper that stores the rows of a machine's store, and does what it is asked for each change that it takes, stores those of the last
/// store: after requests, and after the lines of a script.
pub fn keepers_store_every_run()
    ensures requests { (M : Machine) (events : List Event) → stored_after events M (all_kept M.world.store.rows) ≡ all_kept (run events M).world.store.rows }
    ensures lines { (M : Machine) (lines : List Given) →
        stored_after (events_of lines) M (all_kept M.world.store.rows) ≡ all_kept (after_lines lines M).world.store.rows }
{}
