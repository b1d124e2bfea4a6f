//! What a request writes, and what it leaves alone.

ghost use Rattle.std.specs.Prelude.{◌≡◌, ℕ, List, Option, Some, false};
ghost use Rattle.spec_data.specs.Data.{Data};
ghost use Rattle.spec_data.specs.Rows.{Row};
ghost use Rattle.spec_store.specs.Store.{row_at};
ghost use Rattle.spec_store.specs.Commit.{Command, Expect, Setting, is_index_id};
ghost use Rattle.spec_server.specs.Requests.{Do, Event, Keeping, Line, Pump};
ghost use Rattle.spec_server.specs.Courses.{Machine};
ghost use Rattle.spec_server.specs.Machine.{run, start, step};
ghost use Rattle.raven_laws.specs.Writes.{BulkIsAnswered, DeleteIsAnswered, IsWritten, PutIsAnswered, OnlyReads};

/// A Put is refused for a stated cause and changes nothing; or the keeper failed and nothing changes; or the store has the given document,
/// without the members that the server writes itself, under the change vector of the reply, and all other rows and the indexes stay as they
/// were.
pub fn puts_are_answered()
    ensures { (M : Machine) (k : Keeping) (now : ℕ) (id : List ℕ) (expected : Expect) (body : Data) → PutIsAnswered M k now id expected body }
{}

/// A Delete is refused for a stated cause and changes nothing; or the keeper failed and nothing changes; or there was no document and
/// nothing changes; or the id has the tombstone of the document, and all other rows and the indexes stay as they were.
pub fn deletes_are_answered()
    ensures { (M : Machine) (k : Keeping) (now : ℕ) (id : List ℕ) (expected : Expect) → DeleteIsAnswered M k now id expected }
{}

/// A transaction is refused for a stated cause and changes nothing; or the keeper failed and nothing changes; or each of its commands
/// was written.
pub fn transactions_are_whole()
    ensures { (M : Machine) (k : Keeping) (now : ℕ) (commands : List Command) → BulkIsAnswered M k now commands }
{}

/// A line that only asks changes nothing, and batches change no row.
pub fn only_writes_write()
    ensures questions { (M : Machine) (k : Keeping) (now : ℕ) (line : Line) → OnlyReads line → (step M k now line).machine ≡ M }
    ensures batches { (M : Machine) (k : Keeping) (now max : ℕ) (index : Option (List ℕ)) → (step M k now (Do (Pump max index))).machine.world.store ≡ M.world.store }
{}

/// No row is invented: each, except those of definitions, was written by a command of one of the lines, all of whose commands
/// were taken.
pub fn rows_were_written()
    ensures { (setting : Setting) (events : List Event) (id : List ℕ) (r : Row) →
        row_at id (run events (start setting)).world.store.rows ≡ Some r → is_index_id r.id ≡ false → IsWritten (start setting) events r }
{}
