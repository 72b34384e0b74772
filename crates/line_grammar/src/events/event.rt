//! Events and the lines that say them.
ghost use Rattle.std.specs.Prelude.{◌≡◌, [], ◌∷◌, ◌++◌, IfOk, OnOk, OnErr};

use blk_base::NoMemory;
use std::alloc::Global;
use std::marker::Model;

/// One step of one part of the stack.
#[derive(Clone, Copy, PartialEq, Eq, Debug)]
pub enum CoreEvent {
    /// The thread with this number, counted from 1, goes on with its calls.
    Call(u32),
    /// The commit actor takes a step: it begins to close the running transaction, or goes on with the one that it commits.
    Commit,
    /// The flush actor takes a step: it submits a flush where one is due, or else takes a completion.
    FlushStep,
    /// The host writes back the page at this place of its list.
    Writeback(u32),
    /// The next request goes into the submission queue, unless it is full.
    Submit,
    /// The scheduler takes a request from the submission queue, where it can accept one.
    Accept,
    /// The scheduler sends the command that it keeps, or else the one at this place of its eligible list.
    /// A command that finds the dispatch queue full is kept.
    Dispatch(u32),
    /// The device takes the next command, where it has room.
    Receive,
    /// The device moves the command at this place of its eligible list into its cache.
    Transfer(u32),
    /// The device writes the entry at this place of its eligible list to the medium.
    Persist(u32),
    /// The device sends the completion that it keeps, or else its next one, into the completion queue. One that
    /// finds the queue full is kept.
    Answer,
}

/// What an event line says.
#[derive(Clone, Copy, PartialEq, Eq, Debug)]
pub enum EventWord {
    One(CoreEvent),
    /// Each thread goes on once, in the order of their numbers, and then each other part of the stack but the write-back
    /// once.
    Round,
    /// The same without the threads.
    Back,
}

/// An event line, and how often it is done.
#[derive(Clone, Copy, PartialEq, Eq, Debug)]
pub struct EventLine {
    pub what: EventWord,
    pub count: u32,
}

/// Event lines in order.
#[derive(Drop)]
pub struct Events {
    items: Vec<EventLine>,
}

impl Model for Events {
    ghost use Rattle.std.specs.Prelude.{List};
    ghost use Rattle.line_grammar.specs.declared.events.event.EventLine.{EventLine};

    ghost Value = { List EventLine };

    ghost view = { λ e. e.items.items };
}

impl Events {
    /// No event lines. It takes no memory.
    pub fn new(alloc: Global) -> Events
        ensures { result ≡ [] }
    {
        Events {
            items: Vec::new(alloc),
        }
    }

    /// Puts an event line behind the others.
    pub fn push(&mut self, line: EventLine) -> Result<(), NoMemory>
        ensures pushed { OnOk result (self.new ≡ self.old ++ line ∷ []) }
        ensures kept { OnErr result (self.new ≡ self.old) }
    {
        self.items.push(line)?;
        Ok(())
    }

    /// The lines in order.
    pub fn as_slice(&self) -> &[EventLine]
        ensures { result.now ≡ self.now }
    {
        &self.items
    }

    /// The same lines again.
    pub fn copy(&self, alloc: Global) -> Result<Events, NoMemory>
        ensures { IfOk result (λ e. e ≡ self.now) }
    {
        Ok(Events {
            items: Vec::from_slice(alloc, &self.items)?,
        })
    }
}
