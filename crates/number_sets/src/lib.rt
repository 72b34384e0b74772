//! Sets of numbers, as lists in which each number stands once, in rising order.
//!
//! The parts of a host that keep block numbers keep them so: what is added to a set takes no memory once that is
//! reserved, and what is written of it has one order.
//!
//! `sets` has the calls on vectors of numbers, and `laws` what a set has after each of them.
//!
//! Stands on `blk_base`, whose words on membership its laws use.
#![tactic(auto)]

mod laws;
mod search;
mod sets;

pub use laws::sets_have_what_was_added;
pub use sets::{add_u32, add_u64, has_u32, has_u64, take_u32};
