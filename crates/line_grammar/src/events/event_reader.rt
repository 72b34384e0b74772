//! Reads event lines.
ghost use Rattle.std.specs.Prelude.{◌≡◌, map};
ghost use Rattle.line_grammar.specs.events.EventLines.{is_count, plain_event, pick_event, turn_event, plain_taken, pick_taken, turn_taken, pick_line, turn_line, event_of};

use crate::events::event::{CoreEvent, EventLine, EventWord};
use crate::events::words::{EventFirst, PickWord, PlainWord, TurnWord};
use script_words::{LineFault, MOST_EVENTS, MOST_REPEATS, PLACES, count_of, numeral};

/// Reads the words behind the first as an event line, or says what is wrong with them.
pub fn read_event(word: EventFirst, words: &[&[u8]]) -> Result<EventLine, LineFault>
    ensures { result ≡ event_of word (map (λ x. x.now) words.now) }
{
    match word {
        EventFirst::Plain(word) => plain_taken(word, count_of(words)),
        EventFirst::Pick(word) => pick_line(word, words),
        EventFirst::Turn(word) => turn_line(word, words),
    }
}

fn is_count(count: u64) -> bool
    ensures { result ≡ is_count count }
{
    count >= 1 && count <= MOST_REPEATS
}

fn plain_event(word: PlainWord) -> CoreEvent
    ensures { result ≡ plain_event word }
{
    match word {
        PlainWord::Submit => CoreEvent::Submit,
        PlainWord::Accept => CoreEvent::Accept,
        PlainWord::Receive => CoreEvent::Receive,
        PlainWord::Commit => CoreEvent::Commit,
        PlainWord::Flush => CoreEvent::FlushStep,
        PlainWord::Answer => CoreEvent::Answer,
    }
}

fn plain_taken(word: PlainWord, count: Option<u64>) -> Result<EventLine, LineFault>
    ensures { result ≡ plain_taken word count }
{
    let Some(count) = count else {
        return Err(LineFault::Spelling);
    };
    if !is_count(count) {
        return Err(LineFault::Number);
    }
    Ok(EventLine {
        what: EventWord::One(plain_event(word)),
        count: count as u32,
    })
}

fn pick_event(word: PickWord, pick: u32) -> CoreEvent
    ensures { result ≡ pick_event word pick }
{
    match word {
        PickWord::Call => CoreEvent::Call(pick),
        PickWord::Write => CoreEvent::Writeback(pick),
        PickWord::Dispatch => CoreEvent::Dispatch(pick),
        PickWord::Transfer => CoreEvent::Transfer(pick),
        PickWord::Persist => CoreEvent::Persist(pick),
    }
}

fn pick_line(word: PickWord, words: &[&[u8]]) -> Result<EventLine, LineFault>
    ensures { result ≡ pick_line word (map (λ x. x.now) words.now) }
{
    match words {
        [] => Err(LineFault::Spelling),
        [pick, rest @ ..] => pick_taken(word, numeral(pick), count_of(rest)),
    }
}

fn pick_taken(word: PickWord, pick: Option<u64>, count: Option<u64>) -> Result<EventLine, LineFault>
    ensures { result ≡ pick_taken word pick count }
{
    let (Some(pick), Some(count)) = (pick, count) else {
        return Err(LineFault::Spelling);
    };
    if pick >= PLACES || !is_count(count) {
        return Err(LineFault::Number);
    }
    Ok(EventLine {
        what: EventWord::One(pick_event(word, pick as u32)),
        count: count as u32,
    })
}

fn turn_event(word: TurnWord) -> EventWord
    ensures { result ≡ turn_event word }
{
    match word {
        TurnWord::Round => EventWord::Round,
        TurnWord::Back => EventWord::Back,
    }
}

fn turn_line(word: TurnWord, words: &[&[u8]]) -> Result<EventLine, LineFault>
    ensures { result ≡ turn_line word (map (λ x. x.now) words.now) }
{
    match words {
        [] => Err(LineFault::Spelling),
        [turns, rest @ ..] => turn_taken(word, numeral(turns), count_of(rest)),
    }
}

fn turn_taken(
    word: TurnWord,
    turns: Option<u64>,
    repeats: Option<u64>,
) -> Result<EventLine, LineFault>
    ensures { result ≡ turn_taken word turns repeats }
{
    let (Some(turns), Some(repeats)) = (turns, repeats) else {
        return Err(LineFault::Spelling);
    };
    if !is_count(turns) || !is_count(repeats) {
        return Err(LineFault::Number);
    }
    let count = turns * repeats;
    if 8 * count > MOST_EVENTS {
        return Err(LineFault::Number);
    }
    Ok(EventLine {
        what: turn_event(word),
        count: count as u32,
    })
}
