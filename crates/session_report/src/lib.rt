//! The text of a session's report, before its tree.
//!
//! `lines` writes it: the figures, a line for each call that was answered, and one for each thread. `specs/ReportText` has the
//! text. The law `lines_of_scripts_are_ascii` says that the lines of a script that was read can be written as they are.
//!
//! Stands on `text`, which has single lines, on `session_grammar` for the lines of a script, and on `host_answers`
//! for what is noted of calls.
#![tactic(auto)]

pub mod bulk;
mod laws;
mod lines;
pub mod text;

pub use laws::lines_of_scripts_are_ascii;
pub use lines::{Figures, put_session};
