//! The text of what a session answers.
//!
//! `reply` writes the reply to a call, and `lines` the lines of a report: of a call that was answered, of a thread, and of
//! a count. `specs/Replies.antt` and `specs/Lines.antt` have the texts.
//!
//! Stands on `tree_model`, which has the replies, on `host_answers` for how a thread stands, and on `byte_text`.
mod lines;
mod reply;

pub use lines::{put_answer, put_count, put_thread};
pub use reply::put_reply;
