//! That no session gets stuck: on any scheduler, and on any device that stays on and of which nothing fails, rounds enough leave
//! no thread a call, also where the session is at its limit.
//!
//! The public functions are laws: they only call laws, and their clauses say it.
//!
//! Stands on `progress` for what the host's own steps get done, and on `session_core` for sessions as one machine and for the
//! session that a script says.
mod laws;

pub use laws::{scripts_come_to_their_end, sessions_never_get_stuck};
