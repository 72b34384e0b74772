//! What gets on in a session: a transaction that is under way is committed, and a barrier call is answered, by the host's own
//! steps. Only where an earlier transaction holds a block of the running one do they wait for the device.
//!
//! The public functions are laws: they only call laws, and their clauses say it.
//!
//! Stands on `transaction_size` for the room that a transaction finds in the log, and on `call_sessions` for sessions.
mod laws;

pub use laws::{
    a_barrier_call_waits, barrier_calls_begin_at_once, barrier_calls_wait_for_held_blocks_alone,
    transactions_under_way_are_committed,
};
