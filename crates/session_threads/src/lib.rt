//! A session of a script in threads, from its script to its report: the counterpart of `core_run` of `session_core`, which
//! runs the script's own events on one thread.
//!
//! `sides` has host, scheduler and device behind three locks, and their loops. `running` opens what the script says, picks the names of its sides, and hands them to the loops of `sides`. Once the
//! session has ended, a power cut leaves of it what `session_core` recovers and reports, with the same promises as of a session
//! on one thread: these ask of the parts only that they fit, and of the order among them nothing. `specs/Ran` has which
//! report it is: the parts are the replay of the events that the report has, the session has ended, each thread did its whole
//! program, and where nothing stopped the session, the medium has all that it closed. `laws` says so of the report.
#![tactic(auto)]

mod laws;
mod report;
mod running;
pub mod sides;

pub use laws::unstopped_runs_find_all_that_they_closed;
pub use report::ThreadsReport;
pub use running::run_threads;
