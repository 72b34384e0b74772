//! Completions: what a device tells of its commands.
/// What a device tells of a command, by the request's id, or of its power.
#[derive(Clone, Copy, PartialEq, Eq, Debug)]
pub enum Completion {
    /// The part was transferred. It may not be on the medium.
    Moved(u64),
    /// All before the flush is on the medium.
    Flushed(u64),
    /// The command was not done.
    Failed(u64),
    /// The power is off.
    Cut,
}
