//! The grammar of volume scripts: texts as plain values, and the first faulty line of those that are none.
//!
//! The call that matters is `read_session`. What it reads is `session_of` in `specs/Grammar.antt`, and what holds
//! of every script that is read stands in `specs/WellFormed.antt`. Above that definition stand three laws,
//! `sessions_tell_first_fault`, `sessions_are_read_back` and `sessions_are_what_is_spelled`, in words of lines and
//! of a small speller.
//!
//! Stands on `script_grammar` for the first words, the kinds of faults and the limits that both have, on `line_grammar::calls` and
//! `line_grammar::events` for the lines of calls, events and recovery, and on `minix_layout` for the sizes of volumes.
#![tactic(auto)]

mod body;
mod first;
mod grammar;
mod header;
mod law;
mod limits;
mod reading;
mod session_script;
mod word_table;
mod words;

pub use grammar::read_session;
pub use law::{sessions_are_read_back, sessions_are_what_is_spelled, sessions_tell_first_fault};
pub use limits::{
    DEFAULT_LIMIT, DEFAULT_SEED, JOURNALS, MOST_CALLS, MOST_RECOVERS, MOST_SEED, MOST_SESSION,
    MOST_THREADS,
};
pub use session_script::{SessionHeader, SessionScript};
