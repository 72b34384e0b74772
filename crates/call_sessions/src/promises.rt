//! Laws of whole sessions: every entry of the history has its cause, and every promise holds.
//!
//! `specs/Entries` has the entries of a history, `specs/Causes` why calls end with no answer of the tree, `specs/Trees` the
//! trees between them, `specs/Legal` how the history goes by the programs and the tree, and `specs/Answers` what an Ok of a
//! barrier or sync call promises. The public functions do nothing when they are called: each is a law, and its clauses say
//! it, for any list of steps. So each holds also right behind the step that made an entry, and of whatever comes later.
//!
//! Stands on `call_sessions`, whose sessions these are. Its law that a session of scheduler and device takes just such
//! steps stands in `session_core::run::machine`.
mod laws;

pub use laws::{
    answered_calls_keep_their_promises, calls_end_for_a_cause, flushes_of_sessions_are_waited_for,
    histories_follow_the_tree, nothing_is_submitted_behind_a_failure, trees_of_sessions_are_one,
};
