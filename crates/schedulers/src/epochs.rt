//! The plain scheduler: requests in, commands out, by the epoch queue's order of leaving.
//!
//! Stands on `order_model` and `reassign`. What matters is the type `Sched`. It is a `Scheduler`
//! that sends each request as a command of its own: its steps and laws are those of `specs/Sched.antt` and
//! `specs/laws/SchedulerLaws.antt` in `reassign`. What it sends and accepts is said in words of the requests
//! that wait by the laws of `src/laws.rt`.
mod laws;
mod sched;

pub use laws::{blocks_while_an_epoch_leaves, sends_what_may_leave};
pub use sched::Sched;
