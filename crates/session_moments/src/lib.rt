//! The moments of a session: what stands after a front part of its events, and what a power cut there would leave.
#![tactic(auto)]

mod laws;

pub use laws::{fronts_are_scripts, outcomes_are_reported, spans_go_on, what_is_left_is_an_end};
