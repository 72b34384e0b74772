//! The host: the callers' volume, its cached pages and the journal, and the steps of the actors that send them.
//!
//! Each step is that of `host_machine`, over a volume in use. A caller's call is done in one step, or begins, sends its
//! pages and waits. The flush actor sends flushes and takes completions, the commit actor closes transactions and sends
//! their log blocks, and the write-back sends single pages.
//!
//! `host` has the host with the actors' steps, `calling` the callers' step, and `standing` how a caller stands. `stepping`
//! has a step of a call, on the `host_parts` that calls change, of which `known` has what need not be asked again, and
//! `call_progress` and `noted_reply` how far that brought it; `settling` has what the host then notes of the call. `programs` has the callers' calls, and `thread` a caller. `host_trace`
//! has what is kept of a host once its session has ended.
//!
//! Stands on `commit_actor` and `flush_actor`, whose parts it has together, on `page_cache`, and on `begun`
//! and `at_once` for the steps of calls, which has the volume, too; `minix_host` says what the
//! machine is over it.
#![tactic(auto)]

pub mod at_once;
pub mod begun;
mod call_progress;
mod calling;
pub mod effects;
pub mod gates;
mod host;
mod host_parts;
mod host_trace;
mod known;
pub mod lengths;
mod noted_reply;
mod programs;
mod settling;
mod standing;
mod stepping;
mod thread;

pub use crate::at_once::PlainVolume;
pub use host::Host;
pub use host_trace::HostTrace;
pub use programs::Programs;
