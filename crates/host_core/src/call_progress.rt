//! How far a step brought a call.
use crate::begun::Begun;
use crate::noted_reply::NotedReply;
use host_answers::Cause;

/// How far a call came, before that is noted.
#[derive(Drop)]
pub enum CallProgress {
    Answered(NotedReply),
    /// It was a barrier or sync call, and what it asked for holds.
    Done,
    /// The session may have no more requests.
    Full,
    /// The power went.
    Down,
    /// This request failed.
    ReadOnly(u64),
    /// It begins.
    Begun(Begun),
    /// It sent a page, as the request with this number. So many more pages of its list are passed, and it has sent a
    /// barrier or not.
    Sent {
        id: u64,
        passed: usize,
        barrier: bool,
    },
    Waiting(Cause),
}
