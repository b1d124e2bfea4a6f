//! The two facts from which everything about the places of refusals follows.

ghost use Rattle.exact_parse.specs.Exact.{Meets};
ghost use Rattle.exact_parse.specs.Keeps.{Keeps};
ghost use Rattle.index_tokens.specs.Words.{Tokens};
ghost use Rattle.reduce_grammar.specs.declared.spelled.SpelledReduce.{SpelledReduce};
ghost use Rattle.reduce_grammar.specs.Limits.{limit};
ghost use Rattle.reduce_grammar.specs.Reduces.{SpellsReduce};
ghost use Rattle.reduce_grammar.specs.ReduceReading.{reduce_text};

/// The reading of reduces is exact.
pub fn reduces_are_exact()
    // What is read is spelled so; if it stops something goes on; and neither depends on a later token.
    ensures keeps { Keeps SpellsReduce reduce_text }
    // What is spelled is read, or refused at the first token past a limit.
    ensures meets { (s r : Tokens) (a : SpelledReduce) (x : SpellsReduce s a r) → Meets (limit s a r x) a r (reduce_text 0 s) }
{}
