//! Sessions and clean volumes: a made volume is clean, a session keeps it clean, and what a power cut leaves of it is clean
//! once it is recovered. So a check of what a volume script leaves finds no fault.
//!
//! The public functions do nothing when they are called: each is a law, and its clauses say it. `specs/Clean` of
//! `vol_check` says what a clean volume is.
//!
//! Stands on `vol_check::kept_clean` for calls on clean volumes, on `host_machine::runs` and `minix_host` for runs of the host, and on
//! `session_core` for scripts and their reports.
mod laws;

pub use laws::{
    cut_sessions_are_clean, made_volumes_are_clean, sessions_keep_volumes_clean,
    sessions_leave_clean_volumes,
};
