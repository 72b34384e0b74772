//! The laws, each a public function that does nothing when it is called.

mod histories;
mod promises;
mod sessions;

pub use histories::{files_have_places, histories_number_their_calls};
pub use promises::{
    calls_are_asked_without_a_number, calls_that_change_nothing_are_not_hindered,
    volumes_are_seen_as_they_are, volumes_keep_their_promises,
};
pub use sessions::{
    answers_of_sessions_hold, journals_are_read_as_written, new_volumes_can_be_opened,
    sessions_keep_rules_and_trees,
};
