//! A key-value store over barriers: puts as blocks of a log, and what is read of a log.
//!
//! `puts` has a put and what may stand in it, `blocks` the block that spells a put and its number, and `log` the puts that
//! the blocks of a log hold. `specs/Puts`, `specs/Blocks` and `specs/Log` say what these answer, and `laws` that what is
//! written is read back and nothing else is, and which pairs a log's puts leave.
//!
//! Stands on `blk_base` and `byte_fields` for blocks, and on `tree_model` for the characters of names.
#![tactic(auto)]

mod blocks;
pub mod calls;
mod front;
mod laws;
mod log;
mod puts;

pub use blocks::{decode, encode};
pub use laws::{logs_hold_the_first_puts, pairs_have_last_values, puts_are_read_back};
pub use log::{LogContents, Pairs, read_log};
pub use puts::{MOST_KEY, MOST_VALUE, Op, Ops, Put, Text, is_key, is_value};
