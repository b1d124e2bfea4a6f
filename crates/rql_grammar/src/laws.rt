//! The law of queries, the contract of a function without a body.

ghost use Rattle.std.specs.Prelude.{◌≡◌};
ghost use Rattle.exact_parse.specs.Answers.{Answer, IsAnswer, answer_of};
ghost use Rattle.rql_grammar.specs.Limits.{limit};
ghost use Rattle.rql_grammar.specs.Queries.{SpellsQuery};
ghost use Rattle.rql_grammar.specs.QueryReading.{query_text};
ghost use Rattle.rql_grammar.specs.Reads.{Kind};
ghost use Rattle.rql_tokens.specs.Words.{Tokens};
ghost use Rattle.rql_tokens.specs.declared.token.Placed.{Placed};
ghost use Rattle.spec_query.specs.Query as query;

/// Each list of tokens has just one answer, and the reading gives it: the query that they spell within the limits; or the first token with which no
/// query goes on, or that is past a limit, with the kind of the limit.
pub fn queries_are_read_exactly()
    ensures read { (ts : Tokens) → IsAnswer SpellsQuery limit ts (answer_of (query_text 0 ts)) }
    ensures one { (ts : Tokens) (x y : Answer Placed Kind query.Query) → IsAnswer SpellsQuery limit ts x → IsAnswer SpellsQuery limit ts y → x ≡ y }
{}
