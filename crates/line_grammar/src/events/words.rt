//! The words that begin event lines, in groups by what stands behind them.
ghost use Rattle.std.specs.Prelude.{◌≡◌};
ghost use Rattle.line_grammar.specs.events.EventLines.{plain_word, pick_word, turn_word, event_word};

/// Events that pick nothing.
#[derive(Clone, Copy, PartialEq, Eq, Debug)]
pub enum PlainWord {
    Submit,
    Accept,
    Receive,
    Commit,
    Flush,
    Answer,
}

/// Events that name a thread, or pick from a list.
#[derive(Clone, Copy, PartialEq, Eq, Debug)]
pub enum PickWord {
    Call,
    Write,
    Dispatch,
    Transfer,
    Persist,
}

/// Many events in turn.
#[derive(Clone, Copy, PartialEq, Eq, Debug)]
pub enum TurnWord {
    Round,
    Back,
}

/// The first word of an event line.
#[derive(Clone, Copy, PartialEq, Eq, Debug)]
pub enum EventFirst {
    Plain(PlainWord),
    Pick(PickWord),
    Turn(TurnWord),
}

/// The word that begins an event line, where it is known.
pub fn read_event_word(w: &[u8]) -> Option<EventFirst>
    ensures { result ≡ event_word w.now }
{
    if let Some(word) = read_plain_word(w) {
        return Some(EventFirst::Plain(word));
    }
    if let Some(word) = read_pick_word(w) {
        return Some(EventFirst::Pick(word));
    }
    let word = read_turn_word(w)?;
    Some(EventFirst::Turn(word))
}

fn read_plain_word(w: &[u8]) -> Option<PlainWord>
    ensures { result ≡ plain_word w.now }
{
    if w == b"submit".as_slice() {
        Some(PlainWord::Submit)
    } else if w == b"accept".as_slice() {
        Some(PlainWord::Accept)
    } else if w == b"receive".as_slice() {
        Some(PlainWord::Receive)
    } else if w == b"commit".as_slice() {
        Some(PlainWord::Commit)
    } else if w == b"flush".as_slice() {
        Some(PlainWord::Flush)
    } else if w == b"answer".as_slice() {
        Some(PlainWord::Answer)
    } else {
        None
    }
}

fn read_pick_word(w: &[u8]) -> Option<PickWord>
    ensures { result ≡ pick_word w.now }
{
    if w == b"call".as_slice() {
        Some(PickWord::Call)
    } else if w == b"write".as_slice() {
        Some(PickWord::Write)
    } else if w == b"dispatch".as_slice() {
        Some(PickWord::Dispatch)
    } else if w == b"transfer".as_slice() {
        Some(PickWord::Transfer)
    } else if w == b"persist".as_slice() {
        Some(PickWord::Persist)
    } else {
        None
    }
}

fn read_turn_word(w: &[u8]) -> Option<TurnWord>
    ensures { result ≡ turn_word w.now }
{
    if w == b"round".as_slice() {
        Some(TurnWord::Round)
    } else if w == b"back".as_slice() {
        Some(TurnWord::Back)
    } else {
        None
    }
}
