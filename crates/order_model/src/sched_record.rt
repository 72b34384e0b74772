//! The record of a scheduler.
use crate::{Command, Request, Tally};

/// What a scheduler did: the requests that it accepted and the commands that it sent out, in order. Contracts see them; at run
/// time there are their numbers. What a command carries is in the device's record, once it was taken.
#[derive(Drop)]
pub struct SchedRecord {
    pub accepted: Tally<Request>,
    pub sent_out: Tally<Command>,
}
