//! Zones that are used again: a block that a call gave up gets another file's bytes only behind the commit block of that
//! call's transaction.
//!
//! `specs/Freeing` says which zones the entries of a history freed, by what the steps did to the volume, and `specs/Reusing`
//! what holds of the submitted list. The public functions do nothing when they are called: each is a law, and its clauses
//! say it, for any list of steps.
//!
//! Stands on `host_machine` for the steps and the rules, and on `minix_host` and `made` for sessions on a volume.
mod laws;

pub use laws::{runs_reuse_zones_behind_commits, sessions_reuse_zones_behind_commits};
