//! How a caller stands.

/// What a caller's next call is at.
#[derive(Clone, Copy, PartialEq, Eq, Debug)]
pub enum Stand {
    /// It has not begun, or there is none.
    Fresh,
    /// A page on the rest of its list is to be sent, or what it waits for is not fixed yet.
    Sending,
    /// It waits for the running transaction, of which this block is held by that earlier transaction.
    Conflict(u32, u32),
    /// It waits for the commit block of this transaction.
    Commit(u32),
    /// It waits until this request is durable.
    Durable(u64),
}

/// How many calls of a caller were answered, how many it has, and what the next one is at.
#[derive(Clone, Copy, PartialEq, Eq, Debug)]
pub struct Standing {
    pub answered: u32,
    pub calls: u32,
    pub state: Stand,
}
