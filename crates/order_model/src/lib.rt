//! What passes between host, scheduler and device: requests, commands, completions, and the contract
//! of a device that keeps the order of epochs.
//!
//! Stands on `blk_base`. The words of the promise are in `specs/`: `OrderClosed` says what "ordered
//! before", "kept" and "order-closed" mean over the host's list of requests alone, `Device` has what a
//! device shows and its laws, and `Carrying` what it means that commands carry requests. The public item
//! that matters most is the trait `OrderedDev`. Why order reaches the medium, on any device of the trait, is
//! proved in `proofs/OrderToTheMedium.antt`.
#![tactic(auto)]

mod bodies;
mod command;
mod completion;
mod cut_disk;
mod device;
mod ends;
mod history;
mod lawful;
mod list_queue;
mod note;
mod order_law;
mod part;
mod request;
mod sched_record;
mod tally;
mod trail;
mod turn;

pub use command::{Command, Priority};
pub use completion::Completion;
pub use cut_disk::{CutDisk, Origins};
pub use device::{OrderedDev, ReadFault};
pub use ends::{Inlet, Outlet};
pub use history::{Commands, Completions, DeviceRecord, History, Transfer, Transfers};
pub use lawful::lawful_blocks;
pub use list_queue::ListQueue;
pub use note::Note;
pub use order_law::{
    carries_requests_merged, carries_requests_sent_alone, keeps_order_to_the_medium,
    quiet_devices_keep_all,
};
pub use part::{Part, Parts};
pub use request::{Kind, Request};
pub use sched_record::SchedRecord;
pub use tally::Tally;
pub use trail::Trail;
pub use turn::Turn;
