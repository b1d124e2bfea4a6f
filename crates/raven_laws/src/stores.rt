//! How a store grows.

ghost use Rattle.std.specs.Prelude.{◌≡◌, ℕ, List, Ok};
ghost use Rattle.spec_store.specs.Store.{Store, IsStore};
ghost use Rattle.spec_store.specs.Later.{Later};
ghost use Rattle.spec_store.specs.Commit.{Setting, Writer, Command, Written, Commits, commit};

/// A transaction that is taken leaves a valid store with the rows that it wrote, under the next etags without a gap.
/// All that was written before is as it was, or was replaced.
pub fn commit_grows()
    ensures { (s : Setting) (w : Writer) (now : ℕ) (commands : List Command) (S : Store) (new : Written) →
        IsStore S → commit s w now commands S ≡ Ok new → Commits S new }
{}

/// To be a later store is an order: each store is later than itself, and what is later than a later store is later.
pub fn later_orders()
    ensures itself { (S : Store) → Later S S }
    ensures steps { (S N P : Store) → Later S N → Later N P → Later S P }
{}
