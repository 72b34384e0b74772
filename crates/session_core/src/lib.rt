//! A session from its script to its report: a new volume with its journal is made and opened, the events are done, the
//! power is cut, and what is left is recovered and mounted.
//!
//! `running` runs a script, on any device and with any maker of devices for its recovery, or on model devices;
//! `specs/Core` has where that leads; `recover_session` makes the report of every session that ended, also of one whose parts
//! ran apart, and tells that the headline holds of it; `report` has what is left, and `specs/Report` says which report it is and what it
//! promises. `run` does the events one after the other on one thread, and has the session as a machine. `laws` ties what is promised of a call by its kind to the calls' names (`specs/CallNames`), what survived
//! to what a reader sees in the tree, and how calls end to the header of the script (`specs/CallEnds`).
//!
//! Stands on `opening`, `run` and `call_sessions::power_cuts::recovery` for its three parts, and on `call_sessions::power_cuts::calls` for what a
//! power cut may leave.
#![tactic(auto)]

mod laws;
pub mod opening;
mod report;
pub mod run;
mod running;

pub use laws::{
    calls_end_as_their_script_says, calls_promise_by_their_names, what_is_shown_later_survived,
};
pub use report::{CutRecord, DeviceSteps, SessionReport};
pub use running::{
    check_parts, core_run, flash_device, model_device, open_script, recover_session, run_on,
};
