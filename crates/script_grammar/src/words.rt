//! The first words of a line, in the groups of the grammar. A later form adds a word to its group.

/// The words that begin a script.
#[derive(Clone, Copy, PartialEq, Eq, Debug)]
pub enum FirstWord {
    Device,
    Blocks,
    Volume,
}

/// The words of header lines that scripts of block requests may have.
#[derive(Clone, Copy, PartialEq, Eq, Debug)]
pub enum HeaderWord {
    Depth,
    Queue,
    Fail,
    Cut,
    Elevator,
    Flash,
}

/// The words of body lines.
#[derive(Clone, Copy, PartialEq, Eq, Debug)]
pub enum BodyWord {
    Put,
    Flush,
}

/// The words of events that pick nothing.
#[derive(Clone, Copy, PartialEq, Eq, Debug)]
pub enum PlainWord {
    Submit,
    Accept,
    Receive,
}

/// The words of events that pick from a list.
#[derive(Clone, Copy, PartialEq, Eq, Debug)]
pub enum PickWord {
    Dispatch,
    Transfer,
    Persist,
}

/// The first word of a line.
#[derive(Clone, Copy, PartialEq, Eq, Debug)]
pub enum Word {
    First(FirstWord),
    Header(HeaderWord),
    Body(BodyWord),
    /// The line between the body and the event lines.
    Events,
    Plain(PlainWord),
    Pick(PickWord),
    /// A word that begins lines of volume scripts alone.
    OfVolume,
}

/// How a put keeps the order of the requests round it.
#[derive(Clone, Copy, PartialEq, Eq, Debug)]
pub enum Class {
    Free,
    Ordered,
    Barrier,
}

/// A line that is spelled rightly. Its numbers are not tested yet.
#[derive(Clone, Copy, PartialEq, Eq, Debug)]
pub enum Line {
    Depth(u64),
    Queue(u64),
    Fail(u64),
    Cut(u64),
    Elevator,
    Flash(u64),
    Put {
        block: u64,
        value: u8,
        class: Class,
    },
    Flush,
    Events,
    Plain {
        word: PlainWord,
        count: u64,
    },
    Pick {
        word: PickWord,
        pick: u64,
        count: u64,
    },
}
