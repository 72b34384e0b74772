//! The words that begin lines, and how a put keeps the order.
ghost use Rattle.std.specs.Prelude.{◌≡◌};
ghost use Rattle.script_grammar.specs.Words.{first_word, header_word, body_word, plain_word, pick_word, events_word, is_volume_section, is_change, is_query, is_host_event, volume_word, word_of, class_of};

use crate::words::{BodyWord, Class, FirstWord, HeaderWord, PickWord, PlainWord, Word};

/// The word that begins a line, where it is known.
pub fn read_word(w: &[u8]) -> Option<Word>
    ensures { result ≡ word_of w.now }
{
    if let Some(word) = read_first_word(w) {
        return Some(Word::First(word));
    }
    if let Some(word) = read_header_word(w) {
        return Some(Word::Header(word));
    }
    if let Some(word) = read_body_word(w) {
        return Some(Word::Body(word));
    }
    if let Some(word) = read_plain_word(w) {
        return Some(Word::Plain(word));
    }
    if let Some(word) = read_pick_word(w) {
        return Some(Word::Pick(word));
    }
    if let Some(word) = read_events_word(w) {
        return Some(word);
    }
    read_volume_word(w)
}

/// The word that begins a script, where it is known.
pub fn read_first_word(w: &[u8]) -> Option<FirstWord>
    ensures { result ≡ first_word w.now }
{
    if w == b"device".as_slice() {
        Some(FirstWord::Device)
    } else if w == b"blocks".as_slice() {
        Some(FirstWord::Blocks)
    } else if w == b"volume".as_slice() {
        Some(FirstWord::Volume)
    } else {
        None
    }
}

fn read_header_word(w: &[u8]) -> Option<HeaderWord>
    ensures { result ≡ header_word w.now }
{
    if w == b"depth".as_slice() {
        Some(HeaderWord::Depth)
    } else if w == b"queue".as_slice() {
        Some(HeaderWord::Queue)
    } else if w == b"fail".as_slice() {
        Some(HeaderWord::Fail)
    } else if w == b"cut".as_slice() {
        Some(HeaderWord::Cut)
    } else if w == b"elevator".as_slice() {
        Some(HeaderWord::Elevator)
    } else if w == b"flash".as_slice() {
        Some(HeaderWord::Flash)
    } else {
        None
    }
}

fn read_body_word(w: &[u8]) -> Option<BodyWord>
    ensures { result ≡ body_word w.now }
{
    if w == b"put".as_slice() {
        Some(BodyWord::Put)
    } else if w == b"flush".as_slice() {
        Some(BodyWord::Flush)
    } else {
        None
    }
}

fn read_plain_word(w: &[u8]) -> Option<PlainWord>
    ensures { result ≡ plain_word w.now }
{
    if w == b"submit".as_slice() {
        Some(PlainWord::Submit)
    } else if w == b"accept".as_slice() {
        Some(PlainWord::Accept)
    } else if w == b"receive".as_slice() {
        Some(PlainWord::Receive)
    } else {
        None
    }
}

fn read_pick_word(w: &[u8]) -> Option<PickWord>
    ensures { result ≡ pick_word w.now }
{
    if w == b"dispatch".as_slice() {
        Some(PickWord::Dispatch)
    } else if w == b"transfer".as_slice() {
        Some(PickWord::Transfer)
    } else if w == b"persist".as_slice() {
        Some(PickWord::Persist)
    } else {
        None
    }
}

fn read_events_word(w: &[u8]) -> Option<Word>
    ensures { result ≡ events_word w.now }
{
    if w == b"events".as_slice() {
        Some(Word::Events)
    } else {
        None
    }
}

fn is_volume_section(w: &[u8]) -> bool
    ensures { result ≡ is_volume_section w.now }
{
    w == b"limit".as_slice()
        || w == b"seed".as_slice()
        || w == b"thread".as_slice()
        || w == b"recover".as_slice()
}

fn is_change(w: &[u8]) -> bool
    ensures { result ≡ is_change w.now }
{
    w == b"mkdir".as_slice()
        || w == b"rmdir".as_slice()
        || w == b"create".as_slice()
        || w == b"unlink".as_slice()
        || w == b"link".as_slice()
        || w == b"rename".as_slice()
        || w == b"truncate".as_slice()
        || w == b"write".as_slice()
        || w == b"bytes".as_slice()
}

fn is_query(w: &[u8]) -> bool
    ensures { result ≡ is_query w.now }
{
    w == b"read".as_slice()
        || w == b"list".as_slice()
        || w == b"stat".as_slice()
        || w == b"fsync".as_slice()
        || w == b"fdatasync".as_slice()
        || w == b"fbarrier".as_slice()
        || w == b"fdatabarrier".as_slice()
        || w == b"sync".as_slice()
}

fn is_host_event(w: &[u8]) -> bool
    ensures { result ≡ is_host_event w.now }
{
    w == b"call".as_slice()
        || w == b"commit".as_slice()
        || w == b"answer".as_slice()
        || w == b"round".as_slice()
        || w == b"back".as_slice()
}

fn read_volume_word(w: &[u8]) -> Option<Word>
    ensures { result ≡ volume_word w.now }
{
    if is_volume_section(w) || is_change(w) || is_query(w) || is_host_event(w) {
        Some(Word::OfVolume)
    } else {
        None
    }
}

/// How a put keeps the order, by its last word.
pub fn read_class(w: &[u8]) -> Option<Class>
    ensures { result ≡ class_of w.now }
{
    if w == b"free".as_slice() {
        Some(Class::Free)
    } else if w == b"ordered".as_slice() {
        Some(Class::Ordered)
    } else if w == b"barrier".as_slice() {
        Some(Class::Barrier)
    } else {
        None
    }
}
