//! The phase of the commit actor.
use crate::sending::Sending;

/// Whether a transaction is being closed, or its log blocks are being submitted.
#[derive(Drop)]
pub enum Phase {
    Idle,
    Closing,
    Committing(Sending),
}
