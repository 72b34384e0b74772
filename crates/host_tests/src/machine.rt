//! Laws of the host's machine in the words of its rules. Each does nothing when it is called.

mod actors;
mod begun;
mod holds;
mod order;
mod plans;
mod room;
mod rows;
mod wait_ends;
mod waiting;
mod ways;

pub use actors::{
    actors_stop_where_a_request_failed, checkpoints_begin_where_the_log_is_full,
    completions_can_be_taken_whatever_is_due, due_flushes_go_before_completions,
    pages_go_without_order_behind_a_commit, wanted_transactions_are_closed,
};
pub use begun::{
    barrier_and_sync_calls_begin, begun_calls_wait_for_commit_blocks,
    sync_calls_wait_for_a_flush_behind,
};
pub use holds::{
    calls_leave_what_they_did, holds_end_with_commit_block_or_flush, one_flush_serves_all_before_it,
};
pub use order::calls_end_in_this_order;
pub use plans::{pages_of_begun_calls_need_room, plans_go_out_one_by_one};
pub use room::{
    checkpoints_begin_at_the_block, commit_blocks_bring_bodies_in, journals_have_these_numbers,
    log_blocks_are_counted, shares_are_full_to_the_block, zones_are_lacking_to_the_zone,
};
pub use rows::{
    begun_calls_send_what_they_listed, commit_blocks_are_needed_by_their_calls,
    data_barriers_wait_for_changes_alone, data_syncs_need_the_last_put,
    last_pages_of_data_calls_are_barriers, pages_of_changed_files_go_in_order,
    write_backs_count_dirty_pages,
};
pub use wait_ends::{begun_waits_end_with_their_event, plain_waits_end_with_the_transaction};
pub use waiting::{
    closing_hinders_what_changes, full_transactions_are_closed, hindered_calls_end_at_the_limit,
    quarantined_zones_are_waited_for,
};
pub use ways::{calls_go_step_by_step, failures_end_calls, limits_end_calls_at_the_request};
