//! The elevator: a scheduler that sends requests in rising order of block, and puts of consecutive blocks in
//! one command.
//!
//! Stands on `order_model` and `reassign`. What matters is the type `Elevator`. Its rule is in
//! `specs/Elevator.antt`, what it keeps as a `Scheduler` in `specs/laws/`, and the order of its list in the law
//! `lists_requests_as_the_head_meets_them`. What it sends, and where that leaves its head, is said in words of the
//! requests that wait by the laws of `src/laws.rt`.
mod elevator;
mod gathering;
mod laws;
mod searches;

pub use elevator::{Elevator, lists_requests_as_the_head_meets_them};
pub use laws::{
    blocks_while_an_epoch_leaves, gathers_puts_of_consecutive_blocks,
    head_goes_behind_the_last_part, picks_what_may_leave,
};
