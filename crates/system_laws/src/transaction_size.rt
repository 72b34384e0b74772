//! How much a call adds to its transaction, and that no transaction outgrows its share of the log.
//!
//! The public functions are laws: they only call laws, and their clauses say it.
//!
//! Stands on `volume_steps` for calls on a volume, on `vol_check::kept_clean` for what is known of their blocks, and on
//! `call_sessions` for sessions.
mod laws;

pub use laws::{calls_add_little_to_a_transaction, transactions_keep_their_share};
