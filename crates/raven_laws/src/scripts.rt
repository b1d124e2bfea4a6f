//! What holds after every script: its lines are one run.

ghost use Rattle.std.specs.Prelude.{◌≡◌, ◌↔◌, ◌++◌, ℕ, List, Some};
ghost use Rattle.spec_store.specs.Commit.{Setting};
ghost use Rattle.spec_server.specs.Requests.{AreFromClients};
ghost use Rattle.spec_server.specs.Courses.{Machine};
ghost use Rattle.spec_server.specs.Machine.{run, start};
ghost use Rattle.spec_server.specs.Words.{number_of, argument_and_rest};
ghost use Rattle.spec_server.specs.Script.{Given, after_lines, events_of};
ghost use Rattle.spec_server.specs.Sound.{LaterW, Sound};
ghost use Rattle.raven_laws.specs.Words.{IsNumber, IsSplit};
ghost use Rattle.raven_laws.specs.Claims.{FreshIsExact, FreshIsFromScratch, IdsAreSpelledAsStored};
ghost use Rattle.raven_laws.specs.Flags.{FlagsAreExact};

/// The state after lines is that of the run of the events that they make.
pub fn scripts_are_runs()
    ensures { (lines : List Given) (M : Machine) → after_lines lines M ≡ run (events_of lines) M }
{}

/// Whatever lines come from clients, at whatever moments and whatever the keeper does: the state after them is sound, is later than each
/// state before, and its answers are true.
pub fn every_script_is_sound()
    ensures sound { (setting : Setting) (lines : List Given) → AreFromClients (events_of lines) → Sound (after_lines lines (start setting)).world }
    ensures goes_on { (setting : Setting) (lines more : List Given) → AreFromClients (events_of (lines ++ more)) →
        LaterW (after_lines lines (start setting)).world (after_lines (lines ++ more) (start setting)).world }
    ensures fresh { (setting : Setting) (lines : List Given) → AreFromClients (events_of lines) → FreshIsFromScratch (after_lines lines (start setting)) }
    ensures exact { (setting : Setting) (lines : List Given) → AreFromClients (events_of lines) → FreshIsExact (after_lines lines (start setting)) }
    ensures flags { (setting : Setting) (lines : List Given) → AreFromClients (events_of lines) → FlagsAreExact (after_lines lines (start setting)) }
    ensures ids { (setting : Setting) (lines : List Given) → AreFromClients (events_of lines) → IdsAreSpelledAsStored (after_lines lines (start setting)) }
{}

/// A line is split at its first space: an argument without a space before it and the rest after it, each with a byte.
pub fn arguments_are_split_at_spaces()
    ensures { (text word rest : List ℕ) → (argument_and_rest text ≡ Some (word, rest)) ↔ IsSplit text word rest }
{}

/// A number is read exactly from its decimal digits, perhaps with zeros before them, in at most 16 bytes.
pub fn numbers_are_decimal()
    ensures { (text : List ℕ) (n : ℕ) → (number_of text ≡ Some n) ↔ IsNumber text n }
{}
