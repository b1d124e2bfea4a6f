//! What indexes of several maps answer.

ghost use Rattle.std.specs.Prelude.{◌≡◌, ◌↔◌, ℕ, List, Option, None, flat_map, map, true, false};
ghost use Rattle.spec_data.specs.Tables.{Table};
ghost use Rattle.spec_store.specs.Store.{Store, IsStore};
ghost use Rattle.spec_store.specs.Stale.{Unseen};
ghost use Rattle.index_tree.specs.Mapper.{mapper_of};
ghost use Rattle.index_tree.specs.declared.reduce_query.ReduceQuery.{ReduceQuery};
ghost use Rattle.spec_query.specs.Query.{Ask, OfIndex};
ghost use Rattle.spec_index.specs.Again.{reduces_again};
ghost use Rattle.spec_index.specs.Index.{documents};
ghost use Rattle.spec_index.specs.Mapping.{scratch};
ghost use Rattle.spec_index.specs.Rows.{reduced};
ghost use Rattle.spec_index.specs.World.{Slot, World, reads};
ghost use Rattle.spec_server.specs.Several.{all_entries, answer_several, answer_several_over, is_one_stale, parts_of};
ghost use Rattle.spec_server.specs.Sound.{Has, Sound};

/// If none of its parts is stale, an index of several maps answers what its maps give for all documents of the store.
pub fn fresh_answers_of_several_maps_are_from_scratch()
    ensures { (W : World) (ask : Ask) (name : List ℕ) → Sound W → ask.query.origin ≡ OfIndex name → is_one_stale W.store None (parts_of W name) ≡ false →
        answer_several W ask ≡ answer_several_over (λ s. documents (reads s.version) W.store) W ask }
{}

/// The flag says stale exactly if the store has a row that one of the parts reads and has not seen, no newer than the cutoff.
pub fn flags_of_several_maps_are_exact()
    ensures { (S : Store) (cutoff : Option ℕ) (parts : List Slot) → IsStore S →
        (is_one_stale S cutoff parts ≡ true) ↔ ((s : Slot) × Has parts s × Unseen S (reads s.version) s.version.etag cutoff) }
{}

/// The rows of the parts, reduced once more, are the rows of all their entries.
pub fn rows_of_several_maps_are_of_their_parts()
    ensures { (reduce : ReduceQuery) (tables : Slot → Table) (parts : List Slot) → reduces_again reduce ≡ true →
        reduced reduce (flat_map (λ s. reduced reduce (map (λ e. e.1) (scratch (mapper_of s.version.definition) (tables s)))) parts)
        ≡ reduced reduce (map (λ e. e.1) (all_entries tables parts)) }
{}
