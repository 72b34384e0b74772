//! Reads a store's script, line by line.
ghost use Rattle.std.specs.Prelude.{◌≡◌, ℕ, ◌+◌, ◌^◌, ◌<◌, ◌≤◌, true, None, map, length, IfOk};
ghost use Rattle.script_grammar.specs.code.Readers.{IsReadAs, IsTextReadAs};
ghost use Rattle.session_grammar.specs.Grammar.{is_submit};
ghost use Rattle.store_grammar.specs.WellFormed.{IsWellFormed};
ghost use Rattle.store_grammar.specs.Grammar.{stands_in, stood_before, line_taken, later_line, is_behind_events, read_words, read_line, script_read, ended, read_from, store_of};

use crate::body::{event_taken, events_line, flush_line, put_line, recover_taken};
use crate::header::{HeaderSoFar, first_line, header_of, header_taken, is_told};
use crate::reading::{Reading, Section};
use crate::script::StoreScript;
use crate::word_table::read_word;
use crate::words::Word;
use line_grammar::events::{EventFirst, PlainWord};
use script_grammar::{LineError, MOST_SCRIPT_BYTES, ScriptError, ScriptKind, fault_at};
use script_words::{is_skipped, lines, words};
use std::alloc::Global;

/// Reads a store's script, or says its first faulty line and what is wrong with it.
pub fn read_store(alloc: Global, text: &[u8]) -> Result<StoreScript, ScriptError>
    requires { length text.now ≤ MOST_SCRIPT_BYTES }
    ensures ok { IfOk result (λ s. store_of text.now ≡ Ok s) }
    ensures fault { (n : ℕ) (kind : ScriptKind) → result ≡ Err (ScriptError.Fault n kind) → store_of text.now ≡ Err (n, kind) }
    ensures well_formed { IfOk result IsWellFormed }
{
    let lines = lines(alloc, text)?;
    read_lines(alloc, &lines)
}

fn is_submit(word: EventFirst) -> bool
    ensures { result ≡ is_submit word }
{
    match word {
        EventFirst::Plain(PlainWord::Submit) => true,
        _ => false,
    }
}

fn stands_in(section: Section, word: Word) -> bool
    ensures { result ≡ stands_in section word }
{
    match (section, word) {
        (Section::Header, Word::Header(_)) => true,
        (Section::Header | Section::Asking, Word::Put | Word::Flush | Word::Events) => true,
        (Section::Events, Word::Event(word)) => !is_submit(word),
        (Section::Events | Section::Recovery, Word::Recover) => true,
        _ => false,
    }
}

fn stood_before(told: HeaderSoFar, word: Word) -> bool
    ensures { result ≡ stood_before told word }
{
    match word {
        Word::Header(word) => is_told(told, word),
        _ => false,
    }
}

fn line_taken(
    alloc: Global,
    reading: Reading,
    word: Word,
    words: &[&[u8]],
) -> Result<Reading, LineError>
    ensures { IsReadAs result (line_taken reading word (map (λ x. x.now) words.now)) }
{
    match word {
        Word::Header(word) => of_kind(header_taken(reading, word, words)),
        Word::Put => put_line(alloc, reading, words),
        Word::Flush => flush_line(reading, words),
        Word::Events => of_kind(events_line(reading, words)),
        Word::Event(word) => event_taken(reading, word, words),
        Word::Recover => recover_taken(alloc, reading, words),
        Word::Store | Word::Other => {
            drop(reading);
            Err(LineError::Kind(ScriptKind::Order))
        }
    }
}

fn of_kind(read: Result<Reading, ScriptKind>) -> Result<Reading, LineError>
    ensures { IsReadAs result read }
{
    match read {
        Ok(reading) => Ok(reading),
        Err(kind) => Err(LineError::Kind(kind)),
    }
}

// A reading goes by a call: see `body`.
fn later_line(
    alloc: Global,
    reading: Reading,
    word: Option<Word>,
    words: &[&[u8]],
) -> Result<Reading, LineError>
    ensures { IsReadAs result (later_line reading word (map (λ x. x.now) words.now)) }
{
    let Some(word) = word else {
        drop(reading);
        return Err(LineError::Kind(ScriptKind::Word));
    };
    if !stands_in(reading.section, word) {
        drop(reading);
        return Err(LineError::Kind(ScriptKind::Order));
    }
    if stood_before(reading.told, word) {
        drop(reading);
        return Err(LineError::Kind(ScriptKind::Twice));
    }
    line_taken(alloc, reading, word, words)
}

fn is_behind_events(section: Section) -> bool
    ensures { result ≡ is_behind_events section }
{
    match section {
        Section::Header | Section::Asking => false,
        Section::Events | Section::Recovery => true,
    }
}

fn read_words(
    alloc: Global,
    reading: Option<Reading>,
    words: &[&[u8]],
) -> Result<Reading, LineError>
    ensures { IsReadAs result (read_words reading (map (λ x. x.now) words.now)) }
{
    let [word, rest @ ..] = words else {
        return Err(LineError::Kind(ScriptKind::Word));
    };
    match reading {
        None => of_kind(first_line(alloc, read_word(false, word), rest)),
        Some(reading) => {
            let word = read_word(is_behind_events(reading.section), word);
            later_line(alloc, reading, word, rest)
        }
    }
}

fn read_line(
    alloc: Global,
    number: u32,
    reading: Option<Reading>,
    line: &[u8],
) -> Result<Option<Reading>, ScriptError>
    ensures { IsTextReadAs result (read_line number reading line.now) }
{
    if is_skipped(line) {
        return Ok(reading);
    }
    let words = words(alloc, line)?;
    match read_words(alloc, reading, &words) {
        Ok(reading) => Ok(Some(reading)),
        Err(fault) => Err(fault_at(number, fault)),
    }
}

fn script_read(reading: Reading) -> StoreScript
    ensures { result ≡ script_read reading }
{
    let Reading {
        room,
        told,
        ops,
        events,
        recovers,
        ..
    } = reading;
    StoreScript {
        room,
        header: header_of(told),
        ops,
        events,
        recovers,
    }
}

fn ended(number: u32, reading: Option<Reading>) -> Result<StoreScript, ScriptError>
    ensures { IsTextReadAs result (ended number reading) }
{
    let Some(reading) = reading else {
        return Err(ScriptError::Fault(number, ScriptKind::Order));
    };
    if is_behind_events(reading.section) {
        Ok(script_read(reading))
    } else {
        Err(ScriptError::Fault(number, ScriptKind::Order))
    }
}

fn read_lines(alloc: Global, lines: &[&[u8]]) -> Result<StoreScript, ScriptError>
    requires { length lines.now + 1 < 2 ^ 32 }
    ensures { IsTextReadAs result (read_from 1 None (map (λ x. x.now) lines.now)) }
{
    let mut reading = None;
    let mut number = 1;
    for line in lines {
        reading = read_line(alloc, number, reading, line)?;
        number += 1;
    }
    ended(number, reading)
}
