//! The laws of printing, each the contract of a function without a body.

ghost use Rattle.std.specs.Prelude.{◌++◌, ℕ, List};
ghost use Rattle.index_grammar.specs.Expressions.{Spells, Whole};
ghost use Rattle.index_grammar.specs.MapReading.{map_text};
ghost use Rattle.index_grammar.specs.Maps.{SpellsMap};
ghost use Rattle.index_grammar.specs.View.{query_of};
ghost use Rattle.index_grammar.specs.declared.spelled.SpelledMap.{SpelledMap};
ghost use Rattle.index_print.specs.Print.{printed, printed_map, printed_reduce};
ghost use Rattle.index_print.specs.ReadBack.{IsTextOf, IsTextOfReduce, ReadsBack, ReadsBackReduce, reduce_of};
ghost use Rattle.index_print.specs.Spellable.{Each, NamesPart, IsSpellable, IsSpellableMap, IsSpellableReduce, IsApart};
ghost use Rattle.index_tokens.specs.Tokens.{tokens_from, tokens_of};
ghost use Rattle.index_tokens.specs.Words.{Tokens};
ghost use Rattle.index_tree.specs.Trees.{Tree};
ghost use Rattle.index_tree.specs.declared.map_query.MapQuery.{MapQuery};
ghost use Rattle.index_tree.specs.declared.reduce_query.ReduceQuery.{ReduceQuery};
ghost use Rattle.reduce_grammar.specs.ReduceReading.{reduce_text};
ghost use Rattle.reduce_grammar.specs.Reduces.{SpellsReduce};
ghost use Rattle.reduce_grammar.specs.declared.spelled.SpelledReduce.{SpelledReduce};

/// The tokens of a printed expression spell that expression, whatever follows it that begins with no byte of a name.
pub fn printed_expressions_are_spelled()
    ensures { (x : Tree) → IsSpellable x → (place : ℕ) (s : List ℕ) → IsApart s →
        (behind : ℕ) × Spells Whole (tokens_from place 0 (printed x ++ s)) x (tokens_from behind 0 s) }
{}

/// The tokens of a printed map spell that map.
pub fn printed_maps_are_spelled()
    ensures { (query : MapQuery) → IsSpellableMap query → IsTextOf (printed_map query) query }
{}

/// A printed map is read as that map, unless it is past a limit.
pub fn printed_maps_are_read_back()
    ensures { (query : MapQuery) → IsSpellableMap query → ReadsBack query (map_text 0 (tokens_of (printed_map query))) }
{}

/// What the tokens of a text spell can be printed.
pub fn spelled_expressions_are_spellable()
    ensures { (bytes : List ℕ) (x : Tree) (r : Tokens) → Spells Whole (tokens_of bytes) x r → IsSpellable x }
{}

/// Each map that the tokens of a text spell can be printed.
pub fn spelled_maps_are_spellable()
    ensures { (bytes : List ℕ) (spelled : SpelledMap) (r : Tokens) → SpellsMap (tokens_of bytes) spelled r → IsSpellableMap (query_of spelled) }
{}

/// The tokens of a printed reduce spell that reduce.
pub fn printed_reduces_are_spelled()
    ensures { (query : ReduceQuery) → IsSpellableReduce query → IsTextOfReduce (printed_reduce query) query }
{}

/// A printed reduce is read as that reduce, unless it is past a limit.
pub fn printed_reduces_are_read_back()
    ensures { (query : ReduceQuery) → IsSpellableReduce query → ReadsBackReduce query (reduce_text 0 (tokens_of (printed_reduce query))) }
{}

/// Each reduce that the tokens of a text spell can be printed, if no member of a key of one part names another than that one.
pub fn spelled_reduces_are_spellable()
    ensures { (bytes : List ℕ) (spelled : SpelledReduce) (r : Tokens) → SpellsReduce (tokens_of bytes) spelled r →
        Each (λ m. NamesPart spelled.key m.value) (reduce_of spelled).members → IsSpellableReduce (reduce_of spelled) }
{}
