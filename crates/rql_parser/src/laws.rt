//! The law of texts, the contract of a function without a body.
ghost use Rattle.std.specs.Prelude.{◌≡◌, ℕ, List, Result};
ghost use Rattle.spec_query.specs.Query.{Query};
ghost use Rattle.rql_parser.specs.Parse.{IsParsed};
ghost use Rattle.rql_parser.specs.declared.refusal.RqlRefusal.{RqlRefusal};

/// A text has no more than one answer. So what `parse` answers is the only thing that can be answered of it.
pub fn texts_have_one_answer()
    ensures { (text : List ℕ) (a b : Result Query RqlRefusal) → IsParsed text a → IsParsed text b → a ≡ b }
{}
