//! The words that begin lines.
ghost use Rattle.std.specs.Prelude.{◌≡◌};
ghost use Rattle.session_grammar.specs.Words.{number_word, other_header, header_word, part_word, call_step, event_step, step_word, word_of};

use crate::words::{HeaderWord, NumberWord, Word};
use line_grammar::calls::read_call_word;
use line_grammar::events::read_event_word;
use script_grammar::read_first_word;

/// The word that begins a line before `events` or behind it, where it is known.
pub fn read_word(in_events: bool, w: &[u8]) -> Option<Word>
    ensures { result ≡ word_of in_events w.now }
{
    if let Some(word) = read_first_word(w) {
        return Some(Word::First(word));
    }
    if let Some(word) = read_header_word(w) {
        return Some(Word::Header(word));
    }
    if let Some(word) = read_part_word(w) {
        return Some(word);
    }
    read_step_word(in_events, w)
}

fn read_number_word(w: &[u8]) -> Option<NumberWord>
    ensures { result ≡ number_word w.now }
{
    if w == b"depth".as_slice() {
        Some(NumberWord::Depth)
    } else if w == b"queue".as_slice() {
        Some(NumberWord::Queue)
    } else if w == b"limit".as_slice() {
        Some(NumberWord::Limit)
    } else if w == b"fail".as_slice() {
        Some(NumberWord::Fail)
    } else if w == b"cut".as_slice() {
        Some(NumberWord::Cut)
    } else if w == b"seed".as_slice() {
        Some(NumberWord::Seed)
    } else if w == b"flash".as_slice() {
        Some(NumberWord::Flash)
    } else {
        None
    }
}

fn read_other_header(w: &[u8]) -> Option<HeaderWord>
    ensures { result ≡ other_header w.now }
{
    if w == b"elevator".as_slice() {
        Some(HeaderWord::Elevator)
    } else {
        None
    }
}

fn read_header_word(w: &[u8]) -> Option<HeaderWord>
    ensures { result ≡ header_word w.now }
{
    if let Some(word) = read_number_word(w) {
        return Some(HeaderWord::Number(word));
    }
    read_other_header(w)
}

fn read_part_word(w: &[u8]) -> Option<Word>
    ensures { result ≡ part_word w.now }
{
    if w == b"thread".as_slice() {
        Some(Word::Thread)
    } else if w == b"events".as_slice() {
        Some(Word::Events)
    } else if w == b"recover".as_slice() {
        Some(Word::Recover)
    } else if w == b"put".as_slice() {
        Some(Word::Put)
    } else {
        None
    }
}

fn read_call_step(w: &[u8]) -> Option<Word>
    ensures { result ≡ call_step w.now }
{
    let word = read_call_word(w)?;
    Some(Word::Call(word))
}

fn read_event_step(w: &[u8]) -> Option<Word>
    ensures { result ≡ event_step w.now }
{
    let word = read_event_word(w)?;
    Some(Word::Event(word))
}

fn read_step_word(in_events: bool, w: &[u8]) -> Option<Word>
    ensures { result ≡ step_word in_events w.now }
{
    if in_events {
        read_event_step(w).or(read_call_step(w))
    } else {
        read_call_step(w).or(read_event_step(w))
    }
}
