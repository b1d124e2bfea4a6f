//! What stored rows open, and what holds after every run from there.

ghost use Rattle.std.specs.Prelude.{◌≡◌, ◌⊎◌, ◌++◌, ℕ, List, [], Some, None, codes, map, false};
ghost use Rattle.spec_data.specs.Data.{Entries, object};
ghost use Rattle.spec_data.specs.Kept.{KeptRow, all_kept};
ghost use Rattle.spec_data.specs.Members.{member};
ghost use Rattle.spec_data.specs.Rows.{Row};
ghost use Rattle.spec_store.specs.Commit.{Setting, is_index_id};
ghost use Rattle.spec_server.specs.Opening.{OpenedFrom, ReadRow, body_form, dividing, first_form, slots_from};
ghost use Rattle.spec_server.specs.Requests.{AreFromClients, Event, IsFromClient, Line};
ghost use Rattle.spec_server.specs.Courses.{Change, Machine};
ghost use Rattle.spec_server.specs.Machine.{changes_of, run};
ghost use Rattle.spec_server.specs.Script.{Given, after_lines, events_of};
ghost use Rattle.spec_server.specs.Sound.{Has, IsMachine, LaterW, Sound};
ghost use Rattle.spec_store.specs.Store.{AreApart, row_at};
ghost use Rattle.spec_index.specs.World.{Slot, World, new_version};
ghost use Rattle.raven_laws.specs.Claims.{FreshIsExact, FreshIsFromScratch, IdsAreSpelledAsStored};
ghost use Rattle.raven_laws.specs.Flags.{FlagsAreExact};
ghost use Rattle.raven_laws.specs.Opened.{OpenedFaithfully};
ghost use Rattle.raven_laws.specs.Versions.{upgraded, upgraded_read, with_version};
ghost use Rattle.raven_laws.specs.Writes.{IsWritten};

/// The database that stored rows open is sound, if each definition that was read of a row agrees with the row's body. Whatever was read,
/// its rows are stored as those rows, it has the setting under which it was opened, its indexes have recorded nothing yet, and no worker holds anything.
pub fn opened_is_sound()
    ensures sound { (setting : Setting) (held : List KeptRow) (M : Machine) → OpenedFaithfully setting held M → IsMachine M }
    ensures kept { (setting : Setting) (held : List KeptRow) (M : Machine) → OpenedFrom setting held M → all_kept M.world.store.rows ≡ held }
    ensures setting { (setting : Setting) (held : List KeptRow) (M : Machine) → OpenedFrom setting held M → M.world.setting ≡ setting }
    ensures notes { (setting : Setting) (held : List KeptRow) (M : Machine) → OpenedFrom setting held M → M.world.notes ≡ [] }
    ensures idle { (setting : Setting) (held : List KeptRow) (M : Machine) → OpenedFrom setting held M → M.held ≡ [] }
    ensures fresh { (setting : Setting) (held : List KeptRow) (M : Machine) → OpenedFrom setting held M →
        (s : Slot) → Has M.world.slots s → s.version ≡ new_version s.version.definition }
{}

/// From a sound state whatever clients ask leads to a sound one, which is later.
pub fn sound_states_go_on()
    ensures sound { (M : Machine) (events : List Event) → IsMachine M → AreFromClients events → IsMachine (run events M) }
    ensures later { (M : Machine) (events : List Event) → IsMachine M → AreFromClients events → LaterW M.world (run events M).world }
{}

/// Each change that a client's line makes of a sound world leaves a sound one, which is later. So does each change that a call of a world
/// returns, since it is one of these.
pub fn changes_go_on()
    ensures sound { (W : World) (now : ℕ) (line : Line) (c : Change) → Sound W → IsFromClient line → Has (changes_of W now line) c → Sound c.world }
    ensures later { (W : World) (now : ℕ) (line : Line) (c : Change) → Sound W → IsFromClient line → Has (changes_of W now line) c → LaterW W c.world }
{}

/// In a sound state answers are true.
pub fn sound_states_answer_truly()
    ensures fresh { (M : Machine) → Sound M.world → FreshIsFromScratch M }
    ensures exact { (M : Machine) → Sound M.world → FreshIsExact M }
    ensures flags { (M : Machine) → Sound M.world → FlagsAreExact M }
    ensures ids { (M : Machine) → Sound M.world → IdsAreSpelledAsStored M }
{}

/// Whatever clients ask of a database that stored rows opened, each state is sound, is later than those before, and its answers are true.
pub fn every_run_from_stored_rows_is_sound()
    ensures sound { (setting : Setting) (held : List KeptRow) (M : Machine) (events : List Event) →
        OpenedFaithfully setting held M → AreFromClients events → Sound (run events M).world }
    ensures goes_on { (setting : Setting) (held : List KeptRow) (M : Machine) (events more : List Event) →
        OpenedFaithfully setting held M → AreFromClients (events ++ more) →
        LaterW (run events M).world (run (events ++ more) M).world }
    ensures fresh { (setting : Setting) (held : List KeptRow) (M : Machine) (events : List Event) →
        OpenedFaithfully setting held M → AreFromClients events → FreshIsFromScratch (run events M) }
    ensures exact { (setting : Setting) (held : List KeptRow) (M : Machine) (events : List Event) →
        OpenedFaithfully setting held M → AreFromClients events → FreshIsExact (run events M) }
    ensures flags { (setting : Setting) (held : List KeptRow) (M : Machine) (events : List Event) →
        OpenedFaithfully setting held M → AreFromClients events → FlagsAreExact (run events M) }
    ensures ids { (setting : Setting) (held : List KeptRow) (M : Machine) (events : List Event) →
        OpenedFaithfully setting held M → AreFromClients events → IdsAreSpelledAsStored (run events M) }
{}

/// The same for the lines of a script.
pub fn every_script_from_stored_rows_is_sound()
    ensures sound { (setting : Setting) (held : List KeptRow) (M : Machine) (lines : List Given) →
        OpenedFaithfully setting held M → AreFromClients (events_of lines) → Sound (after_lines lines M).world }
    ensures goes_on { (setting : Setting) (held : List KeptRow) (M : Machine) (lines more : List Given) →
        OpenedFaithfully setting held M → AreFromClients (events_of (lines ++ more)) →
        LaterW (after_lines lines M).world (after_lines (lines ++ more) M).world }
    ensures fresh { (setting : Setting) (held : List KeptRow) (M : Machine) (lines : List Given) →
        OpenedFaithfully setting held M → AreFromClients (events_of lines) → FreshIsFromScratch (after_lines lines M) }
    ensures exact { (setting : Setting) (held : List KeptRow) (M : Machine) (lines : List Given) →
        OpenedFaithfully setting held M → AreFromClients (events_of lines) → FreshIsExact (after_lines lines M) }
    ensures flags { (setting : Setting) (held : List KeptRow) (M : Machine) (lines : List Given) →
        OpenedFaithfully setting held M → AreFromClients (events_of lines) → FlagsAreExact (after_lines lines M) }
    ensures ids { (setting : Setting) (held : List KeptRow) (M : Machine) (lines : List Given) →
        OpenedFaithfully setting held M → AreFromClients (events_of lines) → IdsAreSpelledAsStored (after_lines lines M) }
{}

/// No row is invented: each, except those of definitions, was there before the run, if no two rows had the same id, or was written by a
/// command of one of the requests, all of whose commands were taken.
pub fn rows_were_there_or_written()
    ensures { (M : Machine) (events : List Event) (id : List ℕ) (r : Row) → AreApart M.world.store.rows →
        row_at id (run events M).world.store.rows ≡ Some r → is_index_id r.id ≡ false → (row_at id M.world.store.rows ≡ Some r) ⊎ IsWritten M events r }
{}

/// Rows of definitions open to the same slots, or to the same bad etag, if each is as it would be written in the second version, as long as the same
/// definitions are read of their bodies; and a body of the first version says with the member `Version` what it says without.
pub fn rows_of_both_versions_open_alike()
    ensures slots { (setting : Setting) (all : List Row) (count : ℕ) (slots : List Slot) (xs : List ReadRow) →
        slots_from setting (map upgraded all) count slots (map upgraded_read xs) ≡ slots_from setting all count slots xs }
    ensures form { (ms : Entries) → member (codes "Version") ms ≡ None → body_form (with_version (object ms)) ≡ dividing (first_form (object ms)) }
{}
