//! What a run of a script leaves.
use session_core::SessionReport;
use session_threads::ThreadsReport;
use stack_core::Report;

/// What a run of a script leaves, by the kind of the script and of its run.
#[derive(Drop)]
pub enum RunReport {
    /// Of a script of block requests.
    Blocks(Report),
    /// Of a volume script on one thread.
    Session(SessionReport),
    /// Of a volume script in threads.
    Threads(ThreadsReport),
}
