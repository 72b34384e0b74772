//! What a run leaves.
use order_model::{CutDisk, SchedRecord};
use script_grammar::{RequestList, Script};

/// What a run of a script leaves.
#[derive(Drop)]
pub struct Report {
    pub script: Script,
    /// The requests that the host submitted: in a `blocks` script those that went into the submission
    /// queue, in a `device` script those that the device took.
    pub submitted: RequestList,
    /// What the scheduler accepted and sent out. It is empty where there is none.
    pub sched: SchedRecord,
    /// The medium after the power cut, and what the device did.
    pub cut: CutDisk,
}
