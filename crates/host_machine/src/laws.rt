//! The laws, each a public function that does nothing when it is called.

mod parts;
mod rows;
mod sample;
mod steps;
mod zones;

pub use parts::actors_step_on_their_parts;
pub use rows::{
    calls_wait_for_room_and_for_held_blocks, checkpoints_make_room_in_the_log,
    data_barriers_wait_where_they_sent_none, file_barriers_wait_for_no_device,
    freed_zones_wait_for_their_commit_block, one_flush_serves_two_sync_calls,
    orderless_pages_are_sent_again, sync_calls_wait_for_one_flush,
};
pub use sample::promises_of_volumes_can_be_kept;
pub use steps::{actors_keep_the_images, pages_keep_the_rules_by_themselves};
pub use zones::pages_go_where_zones_were_given_up;
