//! What a journal says, before any byte of it: transactions, what they leave of a block, the log as a reader takes
//! it, and the ring of places on which it lies.
//!
//! The meanings are in `specs/`: `Marks` (transactions and what they make of an image), `LastLogged` (the same as
//! a sentence on bodies and revokes), `Log` (the reader), `Grammar` (the log as a
//! grammar, which the reader reads), `Parts` (how a transaction is written) and `Ring`. The
//! public functions do nothing when they are called: each is a law of these meanings, and its clauses say it.
//!
//! Stands on `blk_base`. The crates of the journal read and write bytes by these words, and the laws of crashes
//! speak of them.
#![tactic(auto)]

mod laws;

pub use laws::{
    logs_are_read_block_by_block, logs_are_whole_transactions, marks_are_last_logged_bodies,
    places_go_round_the_ring, ranges_of_transactions_join, replays_leave_last_logged_bodies,
    written_transactions_are_read,
};
