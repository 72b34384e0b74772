//! What closes a queue, and why a request comes back.
/// What keeps a queue from accepting requests.
#[derive(Clone, Copy, PartialEq, Eq, Debug)]
pub enum Closing {
    /// Nothing.
    Open,
    /// A barrier was accepted, and its epoch has not left.
    Barrier,
    /// A flush was accepted, and has not left.
    Flush,
}

/// Why a request was not accepted.
#[derive(Clone, Copy, PartialEq, Eq, Debug)]
pub enum Held {
    /// A barrier's epoch or a flush has not left.
    Blocked,
    /// As many requests wait as may.
    Full,
}
