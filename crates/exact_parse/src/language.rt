//! What a language brings.

ghost use Rattle.std.specs.Prelude.{List};
ghost use Rattle.exact_parse.specs.Exact.{Meets};
ghost use Rattle.exact_parse.specs.Keeps.{Keeps};
ghost use Rattle.exact_parse.specs.Limits.{Verdict};
ghost use Rattle.exact_parse.specs.Steps.{Reader};

/// A grammar with its limits, and a reading of it. A language gives these four and two facts, and every law of this crate holds of it.
pub trait Language {
    /// The tokens, the end of a text among them.
    ghost Token: { Type 0 };
    /// The kinds of refusals, as a language reports them: of tokens with which nothing goes on, and of limits.
    ghost Kind: { Type 0 };
    /// The trees.
    ghost Tree: { Type 0 };
    /// The grammar: the tokens from the first list up to the second spell the tree.
    ghost spells: { List Token → Tree → List Token → Type 0 };
    /// The limits: at which token a spelling is past one.
    ghost limit: { (s : List Token) (a : Tree) (r : List Token) → spells s a r → Verdict Token Kind };
    /// The reading, made of the steps.
    ghost reading: { Reader Token Kind Tree };
    /// What is read is spelled so, and some text goes on from the tokens before a refused one.
    ghost keeps: { Keeps spells reading };
    /// What is spelled is read, or refused at the first token past a limit.
    ghost meets: { (s r : List Token) (a : Tree) (x : spells s a r) → Meets (limit s a r x) a r (reading 0 s) };
}
