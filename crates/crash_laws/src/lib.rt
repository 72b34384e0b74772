//! Why a power cut leaves a prefix of the transactions, and all that a barrier or a sync call promised: laws over
//! lists, which know no host.
//!
//! A session is the list of its requests, what each carries, and the history of its calls. `specs/Rules`,
//! `specs/PageRules` and `specs/PromiseRules` have the order rules that the list has to keep, `specs/Headline` the
//! sentences that follow from them and from a medium that keeps the order of barriers. In `specs/laws/` `Clauses` and
//! `PageClauses` have what a single request owes so that the rules stay kept; `HostFacts`, `RingFacts` and `CallFacts`
//! what a host has to know of itself to meet these clauses. The public
//! functions do nothing when they are called: each is a law, and its clauses say it. `docs/CRASH_LAWS.md` tells the
//! argument from end to end.
//!
//! Stands on `order_model`, `log_model`, `tree_model` and `volume_ops`.
#![tactic(auto)]

mod laws;

pub use laws::{
    barriers_divide_epochs, barriers_keep_order, calls_are_held_when_they_answer,
    calls_on_trees_make_a_history, changes_keep_the_facts, checkpoints_meet_their_clauses,
    commit_blocks_meet_their_clause, held_pairs_were_sent_or_given_up, histories_may_grow,
    histories_of_calls_may_grow, kept_commits_are_a_prefix, logs_end_at_the_last_kept_commit,
    metadata_recovered_is_that_of_a_prefix, pages_meet_their_clause, pairs_that_are_done_stay_good,
    plans_have_the_volume_as_image, promises_are_kept, promises_stay_kept, requests_keep_the_ring,
    requests_keep_the_rules, requests_owe_by_what_they_carry, rules_can_be_kept,
    rules_hold_at_the_start, sentences_follow_from_the_rules, trees_change_by_calls_that_are_done,
    trees_of_images_follow, versions_recovered_are_no_older, volume_and_journal_are_found,
    weaker_rules_lose_a_sentence,
};
