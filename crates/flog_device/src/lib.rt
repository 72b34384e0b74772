//! The flash log device: a queue of commands, a log of pages in segments, and a data area.
//!
//! Stands on `device_epochs::queue`. `FlogDevice` implements `OrderedDev`. All parts go to the log in the order of
//! their transfers; a page is programmed, in any order, and the oldest one is folded into the data area.
//! What lies behind the first page that is not programmed is dropped. `specs/Log.antt` has the log and
//! `specs/Device.antt` the device's state as one plain value with the step of each call; the facts that each
//! step keeps are in `specs/laws/Valid.antt`.
#![tactic(auto)]

mod choice;
mod device;
mod laws;
mod log;
mod page_log;

pub use device::{FlogDevice, FlogSetup};
pub use laws::{pages_behind_a_gap_are_dropped, recovery_is_in_order};
pub use log::{Page, Place, Write};
