//! What a session in threads leaves.
use session_core::SessionReport;
use session_core::run::SessionEnd;
use thread_sides::Effects;

/// What a session in threads left, and the events of its three sides.
#[derive(Drop)]
pub struct ThreadsReport {
    pub report: SessionReport,
    pub effects: Effects,
}

/// What a power cut leaves of a session in threads that has ended, and the events of its three sides.
#[derive(Drop)]
pub struct ThreadsEnd {
    pub end: SessionEnd,
    pub effects: Effects,
}
