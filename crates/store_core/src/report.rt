//! What a store's session leaves.
use session_core::SessionReport;
use wal_store::LogContents;

/// What is told of a store's session.
#[derive(Drop)]
pub struct StoreSummary {
    /// Steps of the device.
    pub steps: u64,
    /// Requests that were submitted.
    pub requests: u64,
    /// Puts that ended before the last flush that was answered with `ok`.
    pub acknowledged: u64,
    /// What the log holds once it was recovered.
    pub held: LogContents,
}

/// What a store's session left.
#[derive(Drop)]
pub struct StoreReport {
    /// The report of the session of its volume script.
    pub session: SessionReport,
    pub summary: StoreSummary,
}
