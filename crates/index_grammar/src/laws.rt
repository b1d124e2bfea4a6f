//! The laws of maps, each the contract of a function without a body.

ghost use Rattle.std.specs.Prelude.{◌≡◌};
ghost use Rattle.exact_parse.specs.Answers.{Answer, IsAnswer, answer_of};
ghost use Rattle.index_grammar.specs.Limits.{limit};
ghost use Rattle.index_grammar.specs.MapReading.{map_text};
ghost use Rattle.index_grammar.specs.Maps.{SpellsMap};
ghost use Rattle.index_grammar.specs.declared.spelled.SpelledMap.{SpelledMap};
ghost use Rattle.index_tokens.specs.Reads.{Kind};
ghost use Rattle.index_tokens.specs.Words.{Tokens};
ghost use Rattle.index_tokens.specs.declared.token.Placed.{Placed};

/// Each list of tokens has just one answer, and the reading gives it: the map that they spell within the limits; or the first token with which no
/// map goes on, or that is past a limit.
pub fn maps_are_read_exactly()
    ensures read { (ts : Tokens) → IsAnswer SpellsMap limit ts (answer_of (map_text 0 ts)) }
    ensures one { (ts : Tokens) (x y : Answer Placed Kind SpelledMap) → IsAnswer SpellsMap limit ts x → IsAnswer SpellsMap limit ts y → x ≡ y }
{}
