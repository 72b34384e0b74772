//! Schedulers of requests, and the queue between a scheduler and its device.
//!
//! `reassign` has the trait of schedulers, its laws and the barrier flag's way to the last request of an epoch; `epochs`
//! the scheduler that works epoch by epoch, `elevator` the one that sorts by block; `dispatch` the queue that threads
//! share.
//!
//! Stands on `order_model`.
#![tactic(auto)]

pub mod dispatch;
pub mod elevator;
pub mod epochs;
pub mod reassign;
