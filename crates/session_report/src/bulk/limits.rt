//! The limits of workloads.

/// The greatest number that a workload is made of, which is how many calls it has.
pub const MOST_GENERATED: u32 = 10_000;

/// How many bytes a call writes, and what offsets and sizes are multiples of.
pub const CALL_BYTES: u32 = 1_024;
