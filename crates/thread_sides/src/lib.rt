//! Two of the three sides of a session in threads: the scheduler and the device, each with its ends of the queues and the
//! list of its events, as one value that a lock can hold.
//!
//! Stands on `schedulers::dispatch`, whose ends the sides hold, and on the traits of schedulers and of ordered devices. What
//! matters most is the invariant of each side, `IsSchedReplay` in `specs/SchedReplay.antt` and `IsDeviceReplay` in
//! `specs/DeviceReplay.antt`: the part is the replay of the side's events, from the part that the session opens, over what
//! the side took. Whoever gets the lock knows that, and of the other sides nothing; so a side asks of each item that it takes
//! whether its part may be given it, by one flag for each id (`IdFlags`). What the session opens stands in the type of a
//! side: a parameter N, whose meanings are the image and the numbers of the script's header (`PartNames`).
#![tactic(auto)]

mod accepting;
mod device_side;
mod events;
mod id_flags;
mod laws;
mod names;
mod receiving;
mod sched_side;

pub use accepting::is_acceptable;
pub use device_side::DeviceSide;
pub use events::{DeviceEvent, Effects, HostEvent, SchedEvent};
pub use id_flags::IdFlags;
pub use laws::{
    commands_that_pass_are_receivable, has_sent_all, lists_have_what_waits,
    requests_that_pass_are_acceptable,
};
pub use names::{OpensDevice, OpensScheduler, PartNames};
pub use receiving::take_receivable;
pub use sched_side::SchedSide;
