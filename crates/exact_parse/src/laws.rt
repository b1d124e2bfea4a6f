//! The laws of exact parsing, each the contract of a function without a body.

ghost use Rattle.std.specs.Prelude.{◌≡◌, ◌++◌, ℕ, List};
ghost use Rattle.exact_parse.specs.Answers.{Answer, IsAnswer, answer_of};
ghost use Rattle.exact_parse.specs.Exact.{SpellsText, UnexpectedAt, TooLargeAt};
ghost use Rattle.exact_parse.specs.Steps.{head, Cause, Outcome, Read, Refused, Unexpected, TooLarge};

use super::language::Language;

/// What is read is spelled so, with no token past a limit.
pub fn what_is_read_is_spelled<L: Language>()
    ensures { (ts r : List L.Token) (a : L.Tree) (c : ℕ) → L.reading 0 ts ≡ Read a c r → SpellsText L.spells L.limit ts a }
{}

/// What is spelled with no token past a limit is read, as that tree.
pub fn what_is_spelled_is_read<L: Language>()
    ensures { (ts : List L.Token) (a : L.Tree) → SpellsText L.spells L.limit ts a → (c : ℕ) × (r : List L.Token) × (L.reading 0 ts ≡ Read a c r) }
{}

/// A token is refused as unexpected exactly if no text of the grammar begins with the tokens up to and with it, though some text
/// begins with those before it, of which none is past a limit.
pub fn unexpected_is_exact<L: Language>()
    ensures refused { (k : L.Kind) (ts p : List L.Token) → L.reading 0 ts ≡ Refused (Unexpected k) p → UnexpectedAt L.spells L.limit ts p }
    ensures only { (ts p : List L.Token) → UnexpectedAt L.spells L.limit ts p → (k : L.Kind) × (L.reading 0 ts ≡ Refused (Unexpected k) p) }
{}

/// A token is refused as too large exactly if some text of the grammar begins with the tokens up to and with it, and in that text it is the
/// first past a limit, which is of that kind.
pub fn too_large_is_exact<L: Language>()
    ensures refused { (k : L.Kind) (ts p : List L.Token) → L.reading 0 ts ≡ Refused (TooLarge k) p → TooLargeAt L.spells L.limit k ts p }
    ensures only { (k : L.Kind) (ts p : List L.Token) → TooLargeAt L.spells L.limit k ts p → L.reading 0 ts ≡ Refused (TooLarge k) p }
{}

/// Each list of tokens is a text, or has one token that is unexpected, or one that is too large: just one of these, of one tree or at one
/// place. So no token is both, and if no text goes on with a token it is unexpected, whatever limits there are.
pub fn answers_are_one<L: Language>()
    ensures some { (ts : List L.Token) → IsAnswer L.spells L.limit ts (answer_of (L.reading 0 ts)) }
    ensures one { (ts : List L.Token) (x y : Answer L.Token L.Kind L.Tree) → IsAnswer L.spells L.limit ts x → IsAnswer L.spells L.limit ts y → x ≡ y }
    ensures apart { (k : L.Kind) (ts p : List L.Token) → UnexpectedAt L.spells L.limit ts p → TooLargeAt L.spells L.limit k ts p → ⊥ }
{}

/// A refusal depends on the tokens up to and with the refused one, and on none after it.
pub fn later_tokens_do_not_count<L: Language>()
    ensures { (ts p : List L.Token) (k : Cause L.Kind) → L.reading 0 ts ≡ Refused k p →
        (before : List L.Token) × (ts ≡ before ++ p) × ((z : List L.Token) → head z ≡ head p → L.reading 0 (before ++ z) ≡ Refused k z) }
{}
