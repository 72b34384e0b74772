//! The words that begin lines of a store's script, in groups by where the lines stand.
use line_grammar::events::EventFirst;

/// The words of header lines.
#[derive(Clone, Copy, PartialEq, Eq, Debug)]
pub enum HeaderWord {
    Depth,
    Queue,
    Fail,
    Cut,
}

/// The first word of a line.
#[derive(Clone, Copy, PartialEq, Eq, Debug)]
pub enum Word {
    Store,
    Header(HeaderWord),
    Put,
    Flush,
    /// The line between what is asked of the store and the event lines.
    Events,
    Recover,
    Event(EventFirst),
    /// A word of other scripts.
    Other,
}
