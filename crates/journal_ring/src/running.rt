//! The running transaction of a journaled volume, and the log blocks that it becomes.
//!
//! Each call that changes the volume notes the blocks of metadata that it touched, those that it freed, and the nodes
//! that it changed. Once the transaction is closed, its log blocks are built: revoke blocks, descriptors with their
//! bodies, and the commit block.
//!
//! `running` has the transaction, `closing` how its log blocks are built, `pieces` what they are, and `laws` what holds
//! over any list of calls.
//!
//! Stands on `journal_blocks`, which writes the blocks, on `journal_ring`, which takes the bodies, and on `number_sets`.
mod closing;
mod laws;
mod pieces;
mod running;

pub use laws::{calls_are_noted, plans_place_the_log_blocks};
pub use pieces::{Pieces, UnplacedBlock};
pub use running::{Plan, Running};
