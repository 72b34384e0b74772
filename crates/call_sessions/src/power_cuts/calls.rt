//! What a power cut leaves of a session over calls as code has them, on an image that was made.
//!
//! `images` says it of calls that carry the proof that they write bytes. Here it is said of calls alone, and of
//! the host that `call_sessions` has of them. `specs/CallImages` has the session, the media that a power cut leaves of it,
//! and how many transactions they keep; `recovery` counts these on the medium, and what it recovers goes on from
//! here. The public functions of `laws` do nothing when they are called: each is a law, and its clauses say it.
mod laws;

pub use crate::power_cuts::recovery::{Attempt, Remounted, attempts_on_model_devices, remount};
pub use laws::{
    cut_sessions_have_the_tree_of_a_prefix, cut_sessions_keep_files, cut_sessions_mount,
    cut_sessions_show_files, cut_sessions_tell_how_many, shown_bytes_tell_what_survived,
};
