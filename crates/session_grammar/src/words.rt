//! The words that begin lines of volume scripts, in groups by where the lines stand.
use line_grammar::calls::CallWord;
use line_grammar::events::EventFirst;
use script_grammar::FirstWord;

/// The words of header lines with a number behind them.
#[derive(Clone, Copy, PartialEq, Eq, Debug)]
pub enum NumberWord {
    Depth,
    Queue,
    Limit,
    Fail,
    Cut,
    Seed,
    Flash,
}

/// The words of header lines.
#[derive(Clone, Copy, PartialEq, Eq, Debug)]
pub enum HeaderWord {
    Number(NumberWord),
    Elevator,
}

/// The first word of a line.
#[derive(Clone, Copy, PartialEq, Eq, Debug)]
pub enum Word {
    First(FirstWord),
    Header(HeaderWord),
    /// A request of a script of block requests.
    Put,
    Thread,
    /// The line between the threads and the event lines.
    Events,
    Recover,
    Call(CallWord),
    Event(EventFirst),
}
