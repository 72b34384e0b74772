//! A key-value store over barriers: the run of its script, and its laws.
//!
//! A store's script is the session of a volume script (`store_grammar`). `run_store` runs that, counts the puts that were
//! acknowledged, and reads the log that is left; `put_store` writes the text of what it tells, which stands in
//! `specs/SummaryText.antt`. `specs/Stores` says which puts are acknowledged and which are held, and `laws` that acknowledged
//! puts are held, that what is held was put and answered, and that nothing that was put later survives a put that was lost.
//! They are proved from what `session_core` promises of any session, on any device.
//!
//! Stands on `wal_store` and `store_grammar` for puts, their blocks and their calls, on `session_core` for sessions, and on
//! `session_report` for lines of counts.
#![tactic(auto)]

mod counting;
mod laws;
mod reading;
mod report;
mod running;
mod text;

pub use laws::{
    acknowledged_puts_are_held, held_puts_were_answered, nothing_put_later_survives_a_lost_put,
};
pub use report::{StoreReport, StoreSummary};
pub use running::run_store;
pub use text::put_store;
