//! The lines of a volume script: events and calls, read and spelled.
//!
//! Stands on `script_words` for words and numbers, and on `tree_model` for calls.
#![tactic(auto)]

pub mod calls;
pub mod events;
