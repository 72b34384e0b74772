//! Calls that are answered in one step: what such a step makes of the journal's part, the volume, the pages and the
//! owners of zones.
//!
//! `step` has the step, over `hindered`, which has calls that wait, and `room`, which makes room for what a call will
//! tell. `laws` has what the step is on the host, whose history is left to the host.
//!
//! Stands on `gates` for the volume, which does the call, and for why a call waits, on `lengths` for the room that it
//! needs, and on `effects` for what it makes of the other parts.
mod hindered;
mod laws;
mod room;
mod step;

pub use crate::gates::{Needs, PlainVolume, asked, kind_of, node_of, would_change};
pub use laws::{plain_calls_step_on_their_parts, replies_are_of_the_tree};
pub use step::{PlainProgress, step_plainly};
