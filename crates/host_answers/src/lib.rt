//! The host's replies: what a step of a caller came to, how a caller stands, and the history of its calls.
//!
//! `step` has the answers to a step, with the causes for which a call waits, `standing` how a caller stands when it is
//! asked, and `entry` what is noted of calls. What each of them means is said by the host.
//!
//! Stands on `tree_model`, which has the replies to calls.
#![tactic(auto)]

mod entry;
mod standing;
mod step;

pub use entry::{Entry, EntryKind};
pub use standing::{Stand, Standing};
pub use step::{Cause, Step};
