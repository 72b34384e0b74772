//! The calls of a store's session, and the lines of a script that say calls.
//!
//! `calls` makes the calls of a store: its log is made, filled with zeros and synced, and then each put is the bytes of
//! its block with a barrier call behind it. `call_lines` writes the line of any call. `specs/Calls` and `specs/CallText`
//! have both, and the law `calls_are_read_back` says that a line which is written is read as its call.
//!
//! Stands on `wal_store` for puts, and on `line_grammar::calls` for programs and the words of calls.
mod call_lines;
mod calls;
mod laws;

pub use call_lines::write_call;
pub use calls::{MOST_ROOM, calls_of, fill_count};
pub use laws::calls_are_read_back;
