//! What is stored after a run opens again.

ghost use Rattle.std.specs.Prelude.{◌≡◌, List, Ok, map};
ghost use Rattle.spec_data.specs.Kept.{KeptRow};
ghost use Rattle.spec_data.specs.Members.{Path};
ghost use Rattle.spec_store.specs.Commit.{Setting};
ghost use Rattle.index_tree.specs.Mapper.{joined};
ghost use Rattle.spec_index.specs.World.{Slot};
ghost use Rattle.spec_server.specs.Requests.{Event};
ghost use Rattle.spec_server.specs.Courses.{Machine};
ghost use Rattle.spec_server.specs.Machine.{run};
ghost use Rattle.spec_server.specs.Script.{Given, after_lines};
ghost use Rattle.spec_server.specs.Sound.{Has};
ghost use Rattle.raven_laws.specs.Asked.{AreTold};
ghost use Rattle.raven_laws.specs.Opened.{OpenedFaithfully};
ghost use Rattle.raven_laws.specs.Versions.{upgraded};
ghost use Rattle.raven_lines.specs.Lines.{AreLines};
ghost use Rattle.index_lang.specs.Openings.{IsOpened};
ghost use Rattle.raven_reopening.specs.Form.{AreEvents, AreKept, AreTimely, IsKept};
ghost use Rattle.raven_reopening.specs.Reopened.{OpensAgain};
ghost use Rattle.raven_reopening.specs.Upgraded.{AreShort, OpensUpgraded};

/// The laws of what stored rows open hold of what they open as they are read: each definition that is read of a row agrees with its
/// body.
pub fn definitions_agree_with_bodies()
    ensures { (setting : Setting) (held : List KeptRow) (M : Machine) → IsOpened setting held (Ok M) → OpenedFaithfully setting held M }
{}

/// Where rows open, the same rows with the member `Version` in the body of each definition open to the same indexes, if no body is too long then.
pub fn upgraded_rows_open_alike()
    ensures { (setting : Setting) (held : List KeptRow) (M : Machine) → IsOpened setting held (Ok M) → AreShort (map upgraded M.world.store.rows) →
        OpensUpgraded setting M.world }
{}

/// After every run from stored rows, if the program can hold its requests, the rows of the database open again: with the same rows, of which
/// nothing counts as cleaned, with an index for each that there was, and with none that was removed.
pub fn a_run_opens_again()
    ensures { (setting : Setting) (held : List KeptRow) (M : Machine) (events : List Event) → IsOpened setting held (Ok M) → AreEvents events →
        OpensAgain setting (run events M).world }
{}

/// The same after the lines of every script, whatever its bytes, if each comes at a moment before `moments_end`.
pub fn a_script_opens_again()
    ensures { (setting : Setting) (held : List KeptRow) (M : Machine) (lines : List Given) → IsOpened setting held (Ok M) → AreLines lines → AreTimely lines →
        OpensAgain setting (after_lines lines M).world }
{}

/// After every run from stored rows, if the program can hold its requests, the lists of each automatic index are of valid paths. Joined forms
/// tell the paths of such a list apart, and the names of its fields those of an index with groups.
pub fn automatic_indexes_have_paths()
    ensures paths { (setting : Setting) (held : List KeptRow) (M : Machine) (events : List Event) → IsOpened setting held (Ok M) → AreEvents events →
        (s : Slot) → Has (run events M).world.slots s → IsKept s.version.definition }
    ensures told { (fields : List Path) (p q : Path) → AreKept fields → Has fields p → Has fields q → joined p ≡ joined q → p ≡ q }
    ensures named { (groups sums : List Path) → AreKept groups → AreKept sums → AreTold groups sums }
{}
