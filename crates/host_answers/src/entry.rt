//! What is noted of calls.
use tree_model::Reply;

/// Whether a call begins or ends. It ends with a reply.
#[derive(Drop, Debug)]
pub enum EntryKind {
    Begin,
    End(Reply),
}

/// A call begins or ends: that of this thread, at this place among its calls. Threads are counted from 1, and calls
/// from 0.
#[derive(Drop, Debug)]
pub struct Entry {
    pub thread: u32,
    pub call: u32,
    pub what: EntryKind,
}
