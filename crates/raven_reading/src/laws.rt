//! The laws of what is read, each the contract of a function without a body.

ghost use Rattle.std.specs.Prelude.{◌≡◌, ℕ, IsUtf8, List, Ok, Result, Some, true};
ghost use Rattle.spec_data.specs.Kept.{KeptRow};
ghost use Rattle.spec_data.specs.Rows.{Row};
ghost use Rattle.spec_store.specs.Commit.{Setting};
ghost use Rattle.spec_server.specs.Opening.{OpenedFrom};
ghost use Rattle.index_tree.specs.Language.{LangRefusal};
ghost use Rattle.spec_server.specs.Requests.{AreFromClients, Line};
ghost use Rattle.spec_server.specs.Courses.{Machine};
ghost use Rattle.index_tree.specs.Definitions.{Definition, Texts};
ghost use Rattle.spec_server.specs.Words.{LineRead};
ghost use Rattle.spec_server.specs.Script.{Given, events_of};
ghost use Rattle.spec_server.specs.WellFormed.{IsWellFormed, has_valid_paths};
ghost use Rattle.spec_query.specs.Query.{Query};
ghost use Rattle.spec_query.specs.Refusals.{QueryRefusal};
ghost use Rattle.raven_lines.specs.Lines.{AreLines, IsLine};
ghost use Rattle.raven_lines.specs.SaysQuery.{SaysQuery};
ghost use Rattle.index_lang.specs.Openings.{IsOpened, Opens};
ghost use Rattle.index_lang.specs.Says.{Says};
ghost use Rattle.raven_reading.specs.Requests.{IsAsked};

/// The texts of a map and of a reduce, if there is one, say one definition, or are refused for one cause, and not both.
pub fn texts_are_read_one_way()
    ensures { (texts : Texts) (a b : Result Definition LangRefusal) → Says texts a → Says texts b → a ≡ b }
{}

/// The text of a query says one query, or is refused for one cause, and not both.
pub fn queries_are_read_one_way()
    ensures { (text : List ℕ) (a b : Result Query QueryRefusal) → SaysQuery text a → SaysQuery text b → a ≡ b }
{}

/// The paths that a query names by a UTF-8 text can be those of an index, and its collection is UTF-8: so the index that is made for it opens
/// again, and to ask the query is well formed.
pub fn queries_name_paths()
    ensures asked { (text : List ℕ) (q : Query) → IsUtf8 text → SaysQuery text (Ok q) → IsAsked q }
    ensures formed { (text : List ℕ) (q : Query) → IsUtf8 text → SaysQuery text (Ok q) → has_valid_paths q ≡ true }
{}

/// A line is read as one thing.
pub fn lines_are_read_one_way()
    ensures { (line : List ℕ) (a b : LineRead) → IsLine line a → IsLine line b → a ≡ b }
{}

/// The lines of a script, as they are read, are what clients send: so the laws of runs hold of every script.
pub fn lines_come_from_clients()
    ensures { (lines : List Given) → AreLines lines → AreFromClients (events_of lines) }
{}

/// What a line asks meets the conditions of the calls that answer it, without which what they write would not open again.
pub fn lines_are_well_formed()
    ensures { (line : List ℕ) (asks : Line) → IsLine line (Ok (Some asks)) → IsWellFormed asks }
{}

/// Stored rows open one database, or one row is reported as the first that is not valid, and not both.
pub fn rows_open_one_way()
    ensures rows { (s : Setting) (rows : List Row) (a b : Result Machine ℕ) → Opens s rows a → Opens s rows b → a ≡ b }
    ensures held { (s : Setting) (held : List KeptRow) (a b : Result Machine ℕ) → IsOpened s held a → IsOpened s held b → a ≡ b }
    ensures some { (s : Setting) (held : List KeptRow) (M : Machine) → IsOpened s held (Ok M) → OpenedFrom s held M }
{}
