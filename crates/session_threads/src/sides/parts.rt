//! What comes out of the three locks.
use host_core::Host;
use thread_sides::Effects;

/// The parts of a session that has ended, and the events that led to them.
#[derive(Drop)]
pub struct JoinedParts<S, D> {
    pub host: Host,
    pub sched: S,
    pub dev: D,
    pub effects: Effects,
}
