//! A session in threads: host, scheduler and device behind three locks, the loops that drive them, and how they are brought
//! together at the end.
//!
//! Stands on `thread_sides`, which has two of the three sides, and on `host_core`. The host's side is the third; its replay
//! is the session's own machine (`specs/HostReplay.antt`). Each loop is lent one lock and a gate, and knows of the other loops
//! three flags alone. `run_sides` runs all loops until the session has ended, as `has_ended` tests it behind the join; what it
//! then says of the three sides together is in `specs/Sides.antt`: each is the replay of its events, and they fit. No
//! order among the events of different sides is known, and no sentence needs one.
mod ending;
mod flags;
mod gate;
mod host_side;
mod loops;
mod names;
mod noted_steps;
mod parts;
mod running;

pub use ending::has_ended;
pub use flags::Flags;
pub use gate::{Gate, WORKER_STACK};
pub use host_side::HostSide;
pub use loops::{
    accept_loop, caller_loop, commit_loop, dispatch_loop, flush_loop, persist_loop, transfer_loop,
};
pub use names::SessionNames;
pub use parts::JoinedParts;
pub use running::run_sides;
