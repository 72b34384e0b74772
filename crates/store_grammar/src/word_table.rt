//! The words that begin lines.
ghost use Rattle.std.specs.Prelude.{◌≡◌};
ghost use Rattle.store_grammar.specs.Words.{header_word, part_word, is_flush, own_word, is_header_elsewhere, is_elsewhere, event_step, other_word, word_of};

use crate::words::{HeaderWord, Word};
use line_grammar::calls::read_call_word;
use line_grammar::events::read_event_word;
use script_grammar::read_first_word;

/// The word that begins a line before `events` or behind it, where it is known.
pub fn read_word(in_events: bool, w: &[u8]) -> Option<Word>
    ensures { result ≡ word_of in_events w.now }
{
    if let Some(word) = read_own_word(in_events, w) {
        return Some(word);
    }
    if let Some(word) = read_event_step(w) {
        return Some(word);
    }
    read_other_word(w)
}

fn read_own_word(in_events: bool, w: &[u8]) -> Option<Word>
    ensures { result ≡ own_word in_events w.now }
{
    if let Some(word) = read_header_word(w) {
        return Some(Word::Header(word));
    }
    if is_flush(in_events, w) {
        return Some(Word::Flush);
    }
    read_part_word(w)
}

fn is_flush(in_events: bool, w: &[u8]) -> bool
    ensures { result ≡ is_flush in_events w.now }
{
    !in_events && w == b"flush".as_slice()
}

fn read_header_word(w: &[u8]) -> Option<HeaderWord>
    ensures { result ≡ header_word w.now }
{
    if w == b"depth".as_slice() {
        Some(HeaderWord::Depth)
    } else if w == b"queue".as_slice() {
        Some(HeaderWord::Queue)
    } else if w == b"fail".as_slice() {
        Some(HeaderWord::Fail)
    } else if w == b"cut".as_slice() {
        Some(HeaderWord::Cut)
    } else {
        None
    }
}

fn read_part_word(w: &[u8]) -> Option<Word>
    ensures { result ≡ part_word w.now }
{
    if w == b"store".as_slice() {
        Some(Word::Store)
    } else if w == b"put".as_slice() {
        Some(Word::Put)
    } else if w == b"events".as_slice() {
        Some(Word::Events)
    } else if w == b"recover".as_slice() {
        Some(Word::Recover)
    } else {
        None
    }
}

fn read_event_step(w: &[u8]) -> Option<Word>
    ensures { result ≡ event_step w.now }
{
    let word = read_event_word(w)?;
    Some(Word::Event(word))
}

fn is_header_elsewhere(w: &[u8]) -> bool
    ensures { result ≡ is_header_elsewhere w.now }
{
    w == b"limit".as_slice()
        || w == b"seed".as_slice()
        || w == b"elevator".as_slice()
        || w == b"flash".as_slice()
        || w == b"thread".as_slice()
}

fn is_elsewhere(w: &[u8]) -> bool
    ensures { result ≡ is_elsewhere w.now }
{
    is_header_elsewhere(w) || read_first_word(w).is_some() || read_call_word(w).is_some()
}

fn read_other_word(w: &[u8]) -> Option<Word>
    ensures { result ≡ other_word w.now }
{
    if is_elsewhere(w) {
        Some(Word::Other)
    } else {
        None
    }
}
