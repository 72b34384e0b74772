//! The events that the three sides of a session store: each a step that changed the part or what the side keeps beside it, or
//! moved an item of a queue, with the outcome of its one push or pop. A step that did none of these is not stored.
ghost use Rattle.std.specs.Prelude.{◌≡◌, []};

use std::alloc::Global;

/// A step of the host's side.
#[derive(Clone, Copy, PartialEq, Eq, Debug)]
pub enum HostEvent {
    /// The thread of this number, counted from 1, went on; whether the queue was full.
    Call(u32, bool),
    /// The commit actor did something.
    Commit,
    /// The Dirty page of this number was sent.
    Writeback(u32),
    /// The flush actor submitted a flush.
    Flush,
    /// The flush actor took the next completion, or that alone was taken though a flush was due.
    Take,
}

/// A step of the scheduler's side.
#[derive(Clone, Copy, PartialEq, Eq, Debug)]
pub enum SchedEvent {
    /// It took the next request.
    Accept,
    /// It sent the command that it kept, or else the one of this pick; whether the queue was full.
    Dispatch(u32, bool),
}

/// A step of the device's side.
#[derive(Clone, Copy, PartialEq, Eq, Debug)]
pub enum DeviceEvent {
    /// It took the next command.
    Receive,
    /// It transferred the command of this pick.
    Transfer(u32),
    /// It wrote the block of this pick to the medium.
    Persist(u32),
    /// It sent the completion that it kept, or else the next one; whether the queue was full.
    Answer(bool),
}

/// The events of the three sides, each in order. Of the order among the sides nothing is known.
#[derive(Drop)]
pub struct Effects {
    pub host: Vec<HostEvent>,
    pub sched: Vec<SchedEvent>,
    pub dev: Vec<DeviceEvent>,
}

impl Effects {
    /// Those of a session that ran on one thread: none.
    pub fn none(alloc: Global) -> Effects
        ensures host { result.host.items ≡ [] }
        ensures sched { result.sched.items ≡ [] }
        ensures dev { result.dev.items ≡ [] }
    {
        Effects {
            host: Vec::new(alloc),
            sched: Vec::new(alloc),
            dev: Vec::new(alloc),
        }
    }
}
