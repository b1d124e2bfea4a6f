//! The laws of maps.

ghost use Rattle.std.specs.Prelude.{◌≡◌, ◌↔◌, ℕ, ℤ, List, FitsSigned, true};
ghost use Rattle.std.specs.Int.{w64};
ghost use Rattle.std.specs.Result.{result_map_both};
ghost use Rattle.jiff_fmt.specs.Temporal.{parse_date, parse_datetime};
ghost use Rattle.spec_data.specs.Rising.{IsRising};
ghost use Rattle.spec_data.specs.Rows.{Row};
ghost use Rattle.spec_data.specs.Tables.{Table};
ghost use Rattle.index_tree.specs.declared.map_query.MapQuery.{MapQuery};
ghost use Rattle.index_tree.specs.Asking.{AgreeAt, Lookup};
ghost use Rattle.index_tree.specs.Definitions.{Definition};
ghost use Rattle.index_tree.specs.Mapper.{mapper_of};
ghost use Rattle.index_tree.specs.Meaning.{Entry, Fields, field_named, meaning};
ghost use Rattle.index_tree.specs.Scope.{scope_of, within};
ghost use Rattle.index_tree.specs.Numbers.{is_within};

/// What a map gives depends on the document and on what its loads give, and on nothing else: if a second lookup has the same at all ids
/// that were asked for under the first one, the map gives the same under it, and asks for the same ids.
pub fn maps_are_local()
    ensures { (query : MapQuery) (d : Row) (find other : Lookup) → AgreeAt (meaning query d find).loads find other →
        meaning query d other ≡ meaning query d find }
{}

/// A map reads rows of its scope alone: if all others are taken out of the lookup, it gives the same, and asks for the same ids.
pub fn maps_read_their_scope()
    ensures { (query : MapQuery) (d : Row) (find : Lookup) → meaning query d (within (scope_of query) find) ≡ meaning query d find }
{}

/// The fields of each entry that a definition gives rise by the bytes of their names, so that each name is there once.
pub fn entries_rise()
    ensures { (definition : Definition) (d : Row) (T : Table) (fields : Fields) → ((mapper_of definition).meaning d T).outcome ≡ Entry fields →
        IsRising fields }
{}

/// Two entries are equal if they have the same under each name.
pub fn fields_make_an_entry()
    ensures { (a b : Fields) → IsRising a → IsRising b → ((name : List ℕ) → field_named name a ≡ field_named name b) → a ≡ b }
{}

/// A text that is read as a civil date with a time is read as that date.
pub fn dates_are_read_alike()
    ensures { (s : List ℕ) → result_map_both (λ both. both.0) (λ e. e) (parse_datetime s) ≡ parse_date s }
{}

/// A number is taken as a result exactly if it fits 64 bits with a sign.
pub fn numbers_are_of_64_bits()
    ensures { (n : ℤ) → (is_within n ≡ true) ↔ FitsSigned w64 n }
{}
