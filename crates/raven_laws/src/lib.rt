//! The laws of the database, each the contract of a function without a body. They are about no code: they hold of every state that
//! the machine can reach.
#![tactic(auto)]

mod cleaning;
mod definitions;
mod indexes;
mod keeping;
mod opening;
mod queries;
mod runs;
mod scripts;
mod several;
mod stores;
mod workers;
mod writes;

pub use cleaning::{
    cleanings_are_answered, cleanings_go_as_far_as_indexes, cleanings_go_on, last_etags_never_fall,
    only_deletions_are_cleaned, rows_stand_unless_cleaned, unread_indexes_need_no_tombstones,
};
pub use definitions::{
    autos_are_answered, batches_for_one_leave_the_others, definitions_are_answered,
    removals_are_answered, same_definition_is_exact, switches_are_answered, tidies_are_answered,
};
pub use indexes::{
    agreement_survives, batch_agrees, documents_are_all, fresh_is_whole, orders_are_total,
    quotients_are_of_their_sums, rows_reduce_again, stale_by_newest, stale_is_unseen,
    touched_is_enough,
};
pub use keeping::{changes_are_their_rows, keepers_follow_stores, keepers_store_every_run};
pub use opening::{
    changes_go_on, every_run_from_stored_rows_is_sound, every_script_from_stored_rows_is_sound,
    opened_is_sound, rows_of_both_versions_open_alike, rows_were_there_or_written,
    sound_states_answer_truly, sound_states_go_on,
};
pub use queries::{
    covering_is_exact, queries_are_answered, retired_indexes_are_outdone, shapes_are_asked,
    suitable_indexes_find_alike,
};
pub use runs::{
    batches_may_wait, batches_move_what_is_stale, every_index_serves_its_name, every_run_goes_on,
    every_run_is_sound, flags_are_exact, fresh_answers_are_exact, fresh_answers_are_from_scratch,
    ids_are_spelled_as_stored, large_batches_are_enough, later_worlds_order, new_names_are_free,
    new_names_have_the_least_number, picks_are_best, served_names_stay,
};
pub use scripts::{
    arguments_are_split_at_spaces, every_script_is_sound, numbers_are_decimal, scripts_are_runs,
};
pub use several::{
    flags_of_several_maps_are_exact, fresh_answers_of_several_maps_are_from_scratch,
    rows_of_several_maps_are_of_their_parts,
};
pub use stores::{commit_grows, later_orders};
pub use workers::{publications_are_answered, publications_go_on, reads_are_answered};
pub use writes::{
    deletes_are_answered, only_writes_write, puts_are_answered, rows_were_written,
    transactions_are_whole,
};
