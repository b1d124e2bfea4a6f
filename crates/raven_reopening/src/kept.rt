//! Rows and definitions are read back as they were stored.

ghost use Rattle.std.specs.Prelude.{◌≡◌, ◌≤◌, ℕ, List, IsTrue, Ok, Option, Some, false, length, true};
ghost use Rattle.std.specs.List.{list_all};
ghost use Rattle.index_tree.specs.declared.map_query.MapQuery.{MapQuery};
ghost use Rattle.index_tree.specs.declared.reduce_query.ReduceQuery.{ReduceQuery};
ghost use Rattle.spec_data.specs.Data.{Data, depth};
ghost use Rattle.spec_data.specs.Json.{reading};
ghost use Rattle.spec_data.specs.Kept.{all_kept, kept};
ghost use Rattle.spec_data.specs.Members.{Path};
ghost use Rattle.spec_data.specs.Rows.{Row};
ghost use Rattle.spec_data.specs.Sound.{IsSound};
ghost use Rattle.spec_store.specs.Commit.{stored_body};
ghost use Rattle.spec_store.specs.Kept.{row_in, rows_in};
ghost use Rattle.index_tree.specs.Definitions.{Auto, AutoReduce, Static, Texts};
ghost use Rattle.spec_server.specs.Opening.{AutoForm, StaticForm, are_rising, body_form, is_path};
ghost use Rattle.spec_store.specs.Store.{IsStore, Store};
ghost use Rattle.spec_index.specs.World.{first_body, row_body};
ghost use Rattle.raven_reopening.specs.Form.{AreValidRows, IsValidRow};

/// A valid row is read back as it was stored.
pub fn stored_rows_are_read_back()
    ensures { (r : Row) → IsValidRow r → row_in (kept r) ≡ Some r }
{}

/// The rows of a store, if all are valid and they are no more than `max`, are read back as they were stored.
pub fn stores_open_again()
    ensures { (S : Store) (max : ℕ) → IsStore S → AreValidRows S.rows → length S.rows ≤ max → rows_in max (all_kept S.rows) ≡ Ok S.rows }
{}

/// The definition of an automatic index is read back from the body that the server stores for it, if its lists are of paths in order, and so
/// are the texts of a definition by texts, that of its reduce if it has one.
pub fn definitions_are_read_back()
    ensures automatic { (collection : List ℕ) (fields : List Path) → IsTrue (list_all is_path fields) → IsTrue (are_rising fields) →
        body_form (stored_body (row_body (Auto collection fields))) ≡ AutoForm (Auto collection fields) }
    ensures grouped { (collection : List ℕ) (groups sums : List Path) → IsTrue (list_all is_path groups) → IsTrue (are_rising groups) →
        IsTrue (list_all is_path sums) → IsTrue (are_rising sums) →
        body_form (stored_body (row_body (AutoReduce collection groups sums))) ≡ AutoForm (AutoReduce collection groups sums) }
    ensures by_text { (query : MapQuery) (reduce : Option ReduceQuery) (texts : Texts) →
        body_form (stored_body (row_body (Static query reduce texts.0 texts.1))) ≡ StaticForm true texts }
{}

/// From a body of the first version a definition is read back in the same way, but that there may be no quotient in its texts.
pub fn first_definitions_are_read_back()
    ensures automatic { (collection : List ℕ) (fields : List Path) → IsTrue (list_all is_path fields) → IsTrue (are_rising fields) →
        body_form (stored_body (first_body (Auto collection fields))) ≡ AutoForm (Auto collection fields) }
    ensures grouped { (collection : List ℕ) (groups sums : List Path) → IsTrue (list_all is_path groups) → IsTrue (are_rising groups) →
        IsTrue (list_all is_path sums) → IsTrue (are_rising sums) →
        body_form (stored_body (first_body (AutoReduce collection groups sums))) ≡ AutoForm (AutoReduce collection groups sums) }
    ensures by_text { (query : MapQuery) (reduce : Option ReduceQuery) (texts : Texts) →
        body_form (stored_body (first_body (Static query reduce texts.0 texts.1))) ≡ StaticForm false texts }
{}

/// What JSON bytes are read as is sound: its numbers have 64 bits, its texts are UTF-8, its members rise. It is at most a hundred deep.
pub fn what_is_read_is_sound()
    ensures sound { (bytes : List ℕ) (d : Data) → reading bytes ≡ Ok d → IsSound d }
    ensures shallow { (bytes : List ℕ) (d : Data) → reading bytes ≡ Ok d → depth d ≤ 100 }
{}
