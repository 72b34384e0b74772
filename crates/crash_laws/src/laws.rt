//! The laws, each a public function that does nothing when it is called.

mod calls;
mod commits;
mod headline;
mod hosts;
mod order;
mod rings;
mod rules;
mod sessions;

pub use calls::{calls_are_held_when_they_answer, pairs_that_are_done_stay_good};
pub use commits::{kept_commits_are_a_prefix, logs_end_at_the_last_kept_commit};
pub use headline::{
    metadata_recovered_is_that_of_a_prefix, promises_are_kept, versions_recovered_are_no_older,
    volume_and_journal_are_found,
};
pub use hosts::{
    changes_keep_the_facts, commit_blocks_meet_their_clause, pages_meet_their_clause,
    plans_have_the_volume_as_image,
};
pub use order::{barriers_divide_epochs, barriers_keep_order, held_pairs_were_sent_or_given_up};
pub use rings::{checkpoints_meet_their_clauses, requests_keep_the_ring};
pub use rules::{
    histories_may_grow, promises_stay_kept, requests_keep_the_rules,
    requests_owe_by_what_they_carry, rules_can_be_kept, rules_hold_at_the_start,
    trees_of_images_follow, weaker_rules_lose_a_sentence,
};
pub use sessions::{
    calls_on_trees_make_a_history, histories_of_calls_may_grow, sentences_follow_from_the_rules,
    trees_change_by_calls_that_are_done,
};
