//! One queue of requests in which barriers are reassigned: a barrier closes the queue, and the
//! order-preserving put that leaves last carries its flag.
//!
//! Stands on `order_model`. The type `EpochQueue` has its meaning in `specs/Epoch.antt`. The trait `Scheduler`
//! is what the stack asks of a scheduler, by the steps and laws of `specs/Scheduler.antt`; those of a
//! scheduler that sends each request as a command of its own are in `specs/Sched.antt`. Which requests may leave a
//! scheduler, and which as the barrier, is in words of requests in `specs/MayLeave.antt`.
mod closing;
mod lawful;
mod queue;
mod scheduler;

pub use closing::{Closing, Held};
pub use lawful::lawful_eligible;
pub use queue::EpochQueue;
pub use scheduler::{CAPACITY, LONGEST, Scheduler};
