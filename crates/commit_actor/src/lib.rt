//! The commit actor of a host: how the running transaction is closed, and its log blocks are submitted.
//!
//! Somebody wants the running transaction closed, and no block that it wants is held. Then the pages of its files are sent;
//! if the log has too little room, the bodies that wait go home, and a superblock frees the log; and the plan is built: the
//! next transaction runs, while the log blocks of this one are sent, the commit block as the last.
//!
//! `journal_part` has the part with its phase, over `log`, which has all but the phase, and `sending`, what is left of a
//! plan; `actor` has the step.
//!
//! Stands on `flush_actor`, `journal_ring`, `journal_ring::running` and `page_cache`, whose parts it moves.
#![tactic(auto)]

mod actor;
mod journal_part;
mod log;
mod phase;
mod sending;

pub use actor::commit_step;
pub use journal_part::JournalPart;
