//! What holds after every run: whatever clients ask, in whatever order.

ghost use Rattle.std.specs.Prelude.{◌≡◌, ◌↔◌, ◌<◌, ◌≤◌, ◌^◌, ◌+◌, ◌++◌, ℕ, List, Some, None, false, length};
ghost use Rattle.spec_store.specs.Store.{Store, last};
ghost use Rattle.index_tree.specs.Meaning.{Fields};
ghost use Rattle.index_tree.specs.Mapper.{mapper_of};
ghost use Rattle.spec_index.specs.Mapping.{scratch};
ghost use Rattle.spec_store.specs.Commit.{Setting};
ghost use Rattle.spec_index.specs.World.{Slot, Version, World, batch, serving};
ghost use Rattle.spec_index.specs.Optimiser.{Choice, Shape, first_free, name_of, pick};
ghost use Rattle.spec_server.specs.Requests.{AreFromClients, Do, Event, Keeping, Line, Pump, takes_all};
ghost use Rattle.spec_server.specs.Courses.{Held, Machine};
ghost use Rattle.spec_server.specs.Batches.{pumping};
ghost use Rattle.spec_server.specs.Answers.{is_stale};
ghost use Rattle.spec_server.specs.Machine.{run, start, step};
ghost use Rattle.spec_server.specs.Sound.{Has, IsHeld, IsMachine, LaterW, NumbersRise, Sound};
ghost use Rattle.raven_laws.specs.Choices.{IsChosen, IsFirstFree};
ghost use Rattle.raven_laws.specs.Served.{ServedStays};
ghost use Rattle.raven_laws.specs.Claims.{FreshIsExact, FreshIsFromScratch, IdsAreSpelledAsStored, IsSpelledAsStored};
ghost use Rattle.raven_laws.specs.Flags.{FlagsAreExact};

/// Each index has recorded what the store has up to its etag, has its row among the indexes' rows, shares its number and its name with no
/// other, and is automatic exactly if its name begins with `auto/`. No limit is passed. Each batch that a worker holds may be published.
pub fn every_run_is_sound()
    ensures { (setting : Setting) (events : List Event) → AreFromClients events → IsMachine (run events (start setting)) }
{}

/// A batch that a worker reads may be published, in the world in which it was read and in every later one, unless tombstones past it were
/// cleaned since.
pub fn batches_may_wait()
    ensures read { (W : World) (worker max : ℕ) (s : Slot) (v : Version) → Sound W → Has W.slots s → batch s.version W.store max ≡ Some v →
        IsHeld W (record { worker = worker; number = s.number; version = v }) }
    ensures later { (W N : World) (h : Held) → IsHeld W h → LaterW W N → IsHeld N h }
{}

/// Each state is later than those before: rows stay, or are replaced, or are tombstones that are cleaned; indexes go forward, and a name
/// keeps its index until that is removed.
pub fn every_run_goes_on()
    ensures { (setting : Setting) (events more : List Event) → AreFromClients (events ++ more) →
        LaterW (run events (start setting)).world (run (events ++ more) (start setting)).world }
{}

/// To be a later world is an order: each world is later than itself, and what is later than a later world is later.
pub fn later_worlds_order()
    ensures itself { (W : World) → LaterW W W }
    ensures steps { (W N P : World) → LaterW W N → LaterW N P → LaterW W P }
{}

/// Each index is the one that serves its name.
pub fn every_index_serves_its_name()
    ensures { (setting : Setting) (events : List Event) (s : Slot) → AreFromClients events →
        let W = (run events (start setting)).world in Has W.slots s → serving W.slots s.name ≡ Some s }
{}

/// What an index that is not stale answers, to a FIND or to a query, is what mapping all documents of the store from scratch gives.
pub fn fresh_answers_are_from_scratch()
    ensures { (setting : Setting) (events : List Event) → AreFromClients events → FreshIsFromScratch (run events (start setting)) }
{}

/// A FIND of an index that is not stale has exactly the ids of the documents that the store has, that the index maps, and whose field is the
/// text. A query without a page has exactly the documents that the index maps and that meet its condition, or those of a whole collection, with
/// the columns that it selects. If the index has a reduce, as for a query that groups, it has exactly the rows that meet its condition among
/// those of the keys that entries of the store's documents have, each made of all entries with its key. A query with a cutoff, of an index that is not stale up to there, is answered from
/// exactly the documents up to the cutoff, and from what the index has recorded of newer rows.
pub fn fresh_answers_are_exact()
    ensures { (setting : Setting) (events : List Event) → AreFromClients events → FreshIsExact (run events (start setting)) }
{}

/// Each flag in a reply, of a FIND, of a query, of a question about staleness or in the list of all indexes, is exact, up to the cutoff that was
/// asked. An index of several maps says stale exactly if one of its parts is.
pub fn flags_are_exact()
    ensures { (setting : Setting) (events : List Event) → AreFromClients events → FlagsAreExact (run events (start setting)) }
{}

/// Ids are spelled as the store spells them: in the entries of each index, and in each answer.
pub fn ids_are_spelled_as_stored()
    ensures entries { (setting : Setting) (events : List Event) (s : Slot) (e : List ℕ × Fields) → AreFromClients events →
        let W = (run events (start setting)).world in
        Has W.slots s → Has (scratch (mapper_of s.version.definition) s.version.table) e → IsSpelledAsStored W.store e.0 }
    ensures answers { (setting : Setting) (events : List Event) → AreFromClients events → IdsAreSpelledAsStored (run events (start setting)) }
{}

/// The index that serves a name, other than that of a replacement, goes on to serve it, with its number and its definition, in every step
/// but three: the line removes it; a TIDY retires it, which says so, and only if it is automatic; or the name is switched to the replacement
/// that is built for it. Then the replacement is not stale on the very store at which it takes the name, and the note of the switch shows it.
pub fn served_names_stay()
    ensures { (M : Machine) (k : Keeping) (now : ℕ) (line : Line) → IsMachine M → ServedStays M k now line }
{}

/// The name that is chosen for a new index is free, so no new index is refused for its name.
pub fn new_names_are_free()
    ensures { (setting : Setting) (events : List Event) (shape : Shape) → AreFromClients events → setting.max_slots < 2 ^ 32 →
        let W = (run events (start setting)).world in serving W.slots (name_of W.slots (last W.store + 1) shape) ≡ None }
{}

/// The index that is picked for a query is the best of those that cover it: fresh before stale, then with fewer fields, then the earlier one.
/// If none does, a new one is made, which takes in the fields of all automatic indexes of its collection and groups, unless those are too many.
/// There is only one such choice.
pub fn picks_are_best()
    ensures picked { (S : Store) (slots : List Slot) (shape : Shape) → NumbersRise 0 slots → IsChosen S slots shape (pick shape S slots) }
    ensures one { (S : Store) (slots : List Slot) (shape : Shape) (c d : Choice) →
        IsChosen S slots shape c → IsChosen S slots shape d → c ≡ d }
{}

/// A used name gets the least number from 2 on that makes it free.
pub fn new_names_have_the_least_number()
    ensures { (slots : List Slot) (name : List ℕ) → IsFirstFree slots name (first_free name slots) }
{}

/// A batch moves the etag of an index exactly if the index is stale.
pub fn batches_move_what_is_stale()
    ensures { (setting : Setting) (events : List Event) (s : Slot) (max : ℕ) → AreFromClients events → 1 ≤ max →
        let W = (run events (start setting)).world in Has W.slots s →
        ((pumping W.store max s).to ≡ (pumping W.store max s).from) ↔ (is_stale W.store s ≡ false) }
{}

/// A batch as large as the store leaves no index stale.
pub fn large_batches_are_enough()
    ensures { (setting : Setting) (events : List Event) (s : Slot) (max : ℕ) → AreFromClients events → 1 ≤ max →
        let M = run events (start setting) in let N = (step M takes_all 0 (Do (Pump max None))).machine in
        length M.world.store.rows ≤ max → Has N.world.slots s → is_stale N.world.store s ≡ false }
{}
