//! The flush actor of a host: what was submitted and completed, and when a flush is due.
//!
//! Calls that are to make something durable wait for a request. Once it was moved, one flush is submitted for all of them,
//! and when that is answered they are done. A transaction's holds end when its commit block was moved, or with the flush
//! behind it where a call waits for that.
//!
//! `flush_part` has the part, over `submission` and `completed`, its two halves, and `waits`, what the threads' calls wait
//! for; `actor` has the step.
//!
//! Stands on `conflicts` for what is held, and on `order_model` for requests, completions and the ends of queues.
#![tactic(auto)]

mod actor;
mod call_kind;
mod completed;
pub mod conflicts;
mod flush_part;
mod submission;
mod wait;
mod waits;

pub use actor::{flush_step, take_step};
pub use call_kind::CallKind;
pub use flush_part::FlushPart;
pub use wait::Wait;
