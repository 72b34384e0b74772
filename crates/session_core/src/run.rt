//! A session on one thread: its events one after the other, and a power cut.
//!
//! `running` has the parts of a session and what each event does, `queues` the queues between them, and `session` runs
//! all event lines and cuts the power. Which state each leads to, the machine of `machine` says; `specs/Beginning` has
//! what a session asks for, `specs/CodeHosts` the host as code has it in its session, and `specs/End` what a session
//! leaves; `specs/code` has the parts as a state of the machine, and which states are reached.
//!
//! Stands on `machine`, on `host_core` for the host, and on `stack_core` for what is behind it.
mod laws;
pub mod machine;
pub mod parts;
mod queues;
mod running;
mod session;

pub use call_sessions::{calls_of_scripts_write_bytes, sessions_of_calls_on_made_images};
pub use host_core::Host;
pub use laws::{hosts_of_code_stay_in_session, sessions_on_made_images_can_be_run};
pub use session::{SessionEnd, run_session};
