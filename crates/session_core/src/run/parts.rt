//! The laws of a session whose parts ran apart: host, scheduler and device, each with steps of its own, of which no order
//! among them is known.
//!
//! Stands on `machine`, whose lemmas on what a step of the host submits serve here too, and on `call_sessions::promises`.
//! That the parts fit is `PartsFit` in `specs/Joined.antt`: three prefixes, and nothing of when each item came. From that
//! and from what each part keeps by itself the order to the medium follows, as it does of a session on one thread.
mod idle_steps;
mod laws;

pub use idle_steps::{idle_turns_leave_the_host, waiting_steps_leave_the_host};
pub use laws::{
    ended_threads_did_their_programs, hosts_number_their_requests, joined_parts_keep_the_order,
    parts_are_lawful,
};
