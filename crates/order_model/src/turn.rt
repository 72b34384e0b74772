//! What one step of a thread tells.
/// What a step of a thread of the host did.
#[derive(Clone, Copy, PartialEq, Eq, Debug)]
pub enum Turn {
    /// There was nothing to do.
    Idle,
    Did,
    /// The submission queue was full.
    QueueFull,
    /// The session has submitted as many requests as it may.
    SessionFull,
    NoMemory,
}
