//! What a step of a caller answers.
use tree_model::Reply;

/// Why a call waits.
#[derive(Clone, Copy, PartialEq, Eq, Debug)]
pub enum Cause {
    /// The running transaction is being closed.
    Closing,
    /// It is full: so many log blocks.
    TxFull(u64),
    /// So many zones are lacking, which freed ones that wait will give.
    Quarantine(u32),
    /// A block of the running transaction is held by an earlier one: the block, and that transaction.
    Conflict(u32, u32),
    /// The commit block of this transaction is not submitted.
    Commit(u32),
    /// This request is not known to be durable.
    Durable(u64),
    /// The submission queue was full.
    QueueFull,
}

/// What a step of a caller answers.
#[derive(Drop, Debug)]
pub enum Step {
    /// The call is done, with this reply.
    Done(Reply),
    /// A barrier or sync call has begun.
    Begun,
    /// It sent a page, as the request with this number.
    Sent(u64),
    /// The call waits.
    Waiting(Cause),
    /// The caller has no call left.
    Ended,
    /// A request failed, which had this number: the call is over.
    ReadOnly(u64),
    /// The power went: the call is over.
    Down,
    /// The session may have no more requests: the call is over.
    SessionFull,
    /// Memory was refused, and nothing changed.
    NoMemory,
}
