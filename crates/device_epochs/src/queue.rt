//! The queue of commands in a device: which command may go next, by SIMPLE and ORDERED tasks. And the ring
//! of commands between a scheduler and a device, first in, first out.
//!
//! Stands on `order_model`. `CommandQueue` has the calls of the queue; its meaning, a list of numbered
//! commands and an eligible list, is in `specs/Queue.antt`. `CommandRing` has those of the ring; its meaning,
//! a capacity and a list of commands, is in `specs/Ring.antt`. In both a command lies in one slot from its
//! arrival until it leaves.
//!
//! What any device over the queue keeps of its commands is here too: the facts in `specs/Facts.antt`, how each
//! call changes them in `specs/laws`, and in `completing.rt` what code notes of a command and tells of it.
mod completing;
mod queue;
mod ring;

pub use completing::{
    complete, complete_failed, count_down, holds_flush, is_number, note_transfers, read_ids,
};
pub use queue::CommandQueue;
pub use ring::CommandRing;
