//! The model device: a queue of commands, a volatile cache of epochs, and a medium.
//!
//! Stands on `queue`. `EpochDevice` implements `OrderedDev`; `specs/Device.antt` has its state
//! as one plain value with the step of each call, and `specs/laws/Valid.antt` the facts that each step
//! keeps. `cache.rt` has the cache, and `specs/code/Newest.antt` what its index says.
#![tactic(auto)]

mod cache;
mod device;
pub mod queue;

pub use cache::Entry;
pub use device::{DeviceSetup, EpochDevice};
