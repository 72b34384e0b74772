//! The host's machine over volumes in use: the session on a journaled volume of Minix V1, from calls to requests.
//!
//! `host_machine` has the host's steps over any volume that keeps a few promises; here the volume is that of
//! `volume_steps`, and the trees are those of `tree_model`. `specs/Sessions` has the model and what a session is opened
//! with, `specs/Volumes` what the host sees of a volume, `specs/Calls` what it asks and does, `specs/ByteCalls` the calls
//! as code has them, `specs/PlainTrees` and `specs/Numbers` the trees with the numbers of calls, `specs/Paths` where a
//! walk finds a file, and `specs/Runs` runs of a session with what a power cut leaves of them.
//!
//! The public functions do nothing when they are called: each is a law, and its clauses say it.
#![tactic(auto)]

mod laws;

pub use laws::{
    answers_of_sessions_hold, calls_are_asked_without_a_number,
    calls_that_change_nothing_are_not_hindered, files_have_places, histories_number_their_calls,
    journals_are_read_as_written, new_volumes_can_be_opened, sessions_keep_rules_and_trees,
    volumes_are_seen_as_they_are, volumes_keep_their_promises,
};
pub use volume_steps::new_volumes_are_in_use;
