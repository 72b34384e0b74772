//! Recovery of a journal on any device that keeps the order of epochs.
//!
//! The log is scanned from the start that the journal's superblock names to the first block that is missing. Each
//! block then gets its last logged body that no revoke cancels: these home writes come first, in rising order of
//! block and the last one as a barrier, then the superblock of an empty log as a barrier, then a flush. So the log
//! is there as long as a home write can be lost, and an attempt may be cut anywhere and begun again.
//!
//! `specs/Recovered.antt` has the recovered image, `specs/Commands.antt` the commands and `specs/Driving.antt` the
//! device steps between them.
//!
//! Stands on `order_model`, whose trait `OrderedDev` is all that it knows of a device, on `journal_blocks` for the
//! format and on `log_model` for transactions.
#![tactic(auto)]

mod choice;
mod drive;
mod end;
mod fault;
mod home;
mod homing;
mod journal;
mod laws;
mod log;
mod plan;
mod recovery;
mod replay;
mod revoke_map;
mod scanning;

pub use choice::{Choice, Repeated};
pub use fault::RecoverFault;
pub use home::{BoxedBlock, LogBody, LogTransaction};
pub use laws::{attempts_keep_the_recovered_image, replays_by_revokes_are_exact};
pub use log::{Log, scan};
pub use recovery::{Recovered, recover};
pub use revoke_map::{RevokeMap, revokes};
