//! The host of a journaled volume as a machine on plain data: callers, commit actor, write-back and flush actor.
//!
//! `specs/Host` has the steps: `advance` of a caller, `commit_step`, `writeback` and `flush_step`. They are steps over the
//! records of `specs/State`: history and threads, the volume and its cached pages, and the journal's part with running
//! transaction, log ring, plan and flushes, which stand in the crates of these parts; `specs/Model` has what the
//! host uses of a tree model and of a volume; `specs/Views` the session and the history that the order rules of
//! `crash_laws` speak of; `specs/Parts` how the steps of commit actor and flush actor are steps on their parts, which their
//! own crates have as code. `specs/laws/Contract` has what volume and tree model promise, and what the host keeps.
//!
//! The public functions do nothing when they are called: each is a law, and its clauses say it. `runs` stands on
//! this crate, and has the laws of whole runs.
#![tactic(auto)]

mod laws;
pub mod runs;

pub use laws::{
    actors_keep_the_images, actors_step_on_their_parts, calls_wait_for_room_and_for_held_blocks,
    checkpoints_make_room_in_the_log, data_barriers_wait_where_they_sent_none,
    file_barriers_wait_for_no_device, freed_zones_wait_for_their_commit_block,
    one_flush_serves_two_sync_calls, orderless_pages_are_sent_again,
    pages_go_where_zones_were_given_up, pages_keep_the_rules_by_themselves,
    promises_of_volumes_can_be_kept, sync_calls_wait_for_one_flush,
};
