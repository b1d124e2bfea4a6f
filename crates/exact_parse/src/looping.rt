//! Loops that a reading may have.

ghost use Rattle.std.specs.Prelude.{◌≡◌, ◌≤◌, ℕ, List, Option, length};
ghost use Rattle.exact_parse.specs.Keeps.{Keeps};
ghost use Rattle.exact_parse.specs.Loops.{LoopKeeps};
ghost use Rattle.exact_parse.specs.Steps.{Next, loop, turns};

/// A loop: what it does at the next token, and what it reads then from each value that it may have.
pub trait Looping {
    /// The tokens.
    ghost Token: { Type 0 };
    /// The kinds of refusals.
    ghost Kind: { Type 0 };
    /// The value of the loop between its turns.
    ghost Value: { Type 0 };
    /// What it gives at its end.
    ghost Tree: { Type 0 };
    /// What is read from a value on.
    ghost spells: { Value → List Token → Tree → List Token → Type 0 };
    /// What is done at the next token.
    ghost next: { Value → Option Token → Next Token Kind Value Tree };
    /// Each turn keeps to what is read from its value on.
    ghost keeps: { LoopKeeps spells next };
}

/// A loop keeps to what its turns keep to. It needs no more turns than there are tokens, so a constant of turns serves for all texts that are
/// no longer, and the refusal for too few turns is never given.
pub fn loops_are_exact<L: Looping>()
    ensures keeps { (k : L.Kind) (a : L.Value) → Keeps (L.spells a) (loop k L.next a) }
    ensures turns { (k : L.Kind) (n : ℕ) (a : L.Value) (c : ℕ) (s : List L.Token) → length s ≤ n → turns k L.next n a c s ≡ loop k L.next a c s }
    ensures kinds { (j k : L.Kind) (a : L.Value) (c : ℕ) (s : List L.Token) → loop j L.next a c s ≡ loop k L.next a c s }
{}
