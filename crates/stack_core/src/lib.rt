//! The run of a script on one thread: events on scheduler and device one after the other, a power cut, and
//! the report of what is left.
//!
//! Stands on `script_grammar`, the devices, `device_epochs` and `flog_device`, and the schedulers, `schedulers::epochs` and
//! `schedulers::elevator`. The call that matters is `core_run`: its report is that of the core run (`specs/Core.antt`), and it keeps
//! the order that the host asked for (`Headline` of `specs/Report.antt`, by `KeepsOrder` of `specs/Headline.antt`).
//! `maker` has what makes the devices that a recovery runs on.
#![tactic(auto)]

mod direct_path;
mod dispatch_queue;
mod maker;
mod report;
mod request_path;
mod running;
mod scheduler_queues;

pub use dispatch_queue::DispatchQueue;
pub use maker::{EpochMaker, FlogMaker, Maker};
pub use report::Report;
pub use running::{core_run, run_on};
pub use scheduler_queues::accept_from;
