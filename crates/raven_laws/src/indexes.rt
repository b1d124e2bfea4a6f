//! What an index has recorded, and when it is stale.

ghost use Rattle.std.specs.Prelude.{◌≡◌, ◌≤◌, ◌↔◌, ◌⊎◌, ℕ, nat_lt, List, Option, Some, None, true, false, flat_map};
ghost use Rattle.std.specs.Cmp.{IsTotalOrder};
ghost use Rattle.std.specs.FinMap.{get};
ghost use Rattle.std.specs.Option.{option_and_then};
ghost use Rattle.spec_data.specs.Rows.{Row};
ghost use Rattle.spec_data.specs.Scalars.{order};
ghost use Rattle.spec_store.specs.Store.{Store, IsStore, last, row_at};
ghost use Rattle.spec_store.specs.Later.{Later};
ghost use Rattle.spec_data.specs.Tables.{Scope, Table, note_rows};
ghost use Rattle.spec_index.specs.Index.{Agrees, etag_of_batch, record_of, documents};
ghost use Rattle.spec_store.specs.Stale.{batch_rows, stale, newest, up_to, Unseen};
ghost use Rattle.index_tree.specs.Mapper.{Mapper, scope_of};
ghost use Rattle.index_tree.specs.Meaning.{Fields};
ghost use Rattle.index_tree.specs.declared.reduce_query.FoldMember.{FoldMember};
ghost use Rattle.index_tree.specs.declared.reduce_query.FoldValue.TheVariants as value;
ghost use Rattle.index_tree.specs.declared.reduce_query.ReduceQuery.{ReduceQuery};
ghost use Rattle.spec_index.specs.Again.{reduces_again};
ghost use Rattle.spec_index.specs.Mapping.{Results, AreResults, remapped, touched};
ghost use Rattle.spec_index.specs.Folds.{addend, quotient_of};
ghost use Rattle.spec_index.specs.Rows.{Key, reduced, row_of, value_at};
ghost use Rattle.spec_server.specs.Sound.{Has};

/// What an index has recorded up to an etag stays right in every later store, and need not be read again, unless tombstones past that etag
/// were cleaned since.
pub fn agreement_survives()
    ensures { (scope : Scope) (T : Table) (S N : Store) (e : ℕ) → Agrees scope T S e → Later S N → e ≤ last S →
        (N.cleaned ≡ S.cleaned) ⊎ (N.cleaned ≤ e) → Agrees scope T N e }
{}

/// After a batch an index agrees with the store that the batch read, up to the batch's etag.
pub fn batch_agrees()
    ensures { (scope : Scope) (T : Table) (S : Store) (e max : ℕ) → IsStore S → Agrees scope T S e → e ≤ last S →
        Agrees scope (note_rows T (batch_rows scope e S max)) S (etag_of_batch scope e S max) }
{}

/// The documents of a store in scope: under each id the store's row, if it is a document in scope.
pub fn documents_are_all()
    ensures { (scope : Scope) (S : Store) (q : List ℕ) → IsStore S → get (documents scope S) q ≡ option_and_then (record_of scope) (row_at q S.rows) }
{}

/// An index that is not stale has recorded exactly the documents in its scope; with a cutoff, this holds of all rows up to the cutoff.
pub fn fresh_is_whole()
    ensures whole { (scope : Scope) (T : Table) (S : Store) (e : ℕ) → IsStore S → Agrees scope T S e →
        stale S scope e None ≡ false → T ≡ documents scope S }
    ensures up_to_cutoff { (scope : Scope) (T : Table) (S : Store) (e : ℕ) (cutoff : Option ℕ) → Agrees scope T S e →
        stale S scope e cutoff ≡ false → (q : List ℕ) (r : Row) → row_at q S.rows ≡ Some r →
        up_to cutoff r.etag ≡ true → get T q ≡ record_of scope r }
{}

/// An index is stale exactly if the store has a row in its scope that is past its etag, and not past the cutoff.
pub fn stale_is_unseen()
    ensures stale { (S : Store) (scope : Scope) (e : ℕ) (cutoff : Option ℕ) → IsStore S →
        (stale S scope e cutoff ≡ true) ↔ Unseen S scope e cutoff }
    ensures fresh { (S : Store) (scope : Scope) (e : ℕ) (cutoff : Option ℕ) → IsStore S →
        (stale S scope e cutoff ≡ false) ↔ (Unseen S scope e cutoff → ⊥) }
{}

/// An index is stale exactly if the newest row in its scope, up to the cutoff, is past its etag.
pub fn stale_by_newest()
    ensures { (S : Store) (scope : Scope) (e : ℕ) (cutoff : Option ℕ) → IsStore S → stale S scope e cutoff ≡ nat_lt e (newest S scope cutoff) }
{}

/// Mapping again what a batch touches, and no other document, gives what mapping the new table from scratch gives.
pub fn touched_is_enough()
    ensures { (m : Mapper) (T : Table) (S : Store) (e max : ℕ) (K : Results) →
        IsStore S → Agrees (scope_of m) T S e → e ≤ last S → AreResults m T K →
        let rows = batch_rows (scope_of m) e S max in
        AreResults m (note_rows T rows) (remapped m (note_rows T rows) (touched m T rows) K) }
{}

/// The order of scalars is total.
pub fn orders_are_total()
    ensures { IsTotalOrder order }
{}

/// The rows that a reduce gives for several lists of entries, one list after another, give when they are reduced once more the rows of all entries
/// together.
pub fn rows_reduce_again()
    ensures { (reduce : ReduceQuery) (parts : List (List Fields)) → reduces_again reduce ≡ true →
        reduced reduce (flat_map (reduced reduce) parts) ≡ reduced reduce (flat_map (λ entries. entries) parts) }
{}

/// In the row of a key each quotient is that of its two sums in this row, cut towards zero, or null if the second is 0.
pub fn quotients_are_of_their_sums()
    ensures { (reduce : ReduceQuery) (entries : List Fields) (key : Key) (m : FoldMember) (var field by_var by : List ℕ) → reduces_again reduce ≡ true →
        Has reduce.members m → m.value ≡ value.Quotient var field by_var by →
        value_at m.name (row_of reduce entries key)
        ≡ quotient_of (addend (value_at field (row_of reduce entries key))) (addend (value_at by (row_of reduce entries key))) }
{}
