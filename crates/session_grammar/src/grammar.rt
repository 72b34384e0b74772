//! Reads volume scripts, line by line.
ghost use Rattle.std.specs.Prelude.{◌≡◌, ℕ, ◌+◌, ◌^◌, ◌<◌, ◌≤◌, true, None, map, length, IfOk};
ghost use Rattle.script_grammar.specs.code.Readers.{IsReadAs, IsTextReadAs};
ghost use Rattle.session_grammar.specs.Grammar.{is_submit, stands_in, has_threads, may_stand, stood_before, line_taken, later_line, is_behind_events, read_words, read_line, script_read, ended, read_from, session_of};
ghost use Rattle.session_grammar.specs.WellFormed.{IsWellFormed};

use crate::body::{call_taken, event_taken, events_line, recover_taken, thread_line};
use crate::first::first_line;
use crate::header::{HeaderSoFar, header_of, header_taken, is_told};
use crate::reading::{Reading, Section};
use crate::session_script::SessionScript;
use crate::word_table::read_word;
use crate::words::{HeaderWord, Word};
use line_grammar::events::{EventFirst, PlainWord};
use script_grammar::{LineError, MOST_SCRIPT_BYTES, ScriptError, ScriptKind, fault_at};
use script_words::{is_skipped, lines, words};
use std::alloc::Global;

/// Reads a volume script, or says its first faulty line and what is wrong with it.
pub fn read_session(alloc: Global, text: &[u8]) -> Result<SessionScript, ScriptError>
    requires { length text.now ≤ MOST_SCRIPT_BYTES }
    ensures ok { IfOk result (λ s. session_of text.now ≡ Ok s) }
    ensures fault { (n : ℕ) (kind : ScriptKind) → result ≡ Err (ScriptError.Fault n kind) → session_of text.now ≡ Err (n, kind) }
    ensures well_formed { IfOk result IsWellFormed }
{
    let lines = lines(alloc, text)?;
    read_lines(alloc, &lines)
}

fn is_submit(word: EventFirst) -> bool
    ensures { result ≡ is_submit word }
{
    match word {
        EventFirst::Plain(PlainWord::Submit) => true,
        _ => false,
    }
}

fn stands_in(section: Section, threads: bool, word: Word) -> bool
    ensures { result ≡ stands_in section threads word }
{
    match (section, word) {
        (Section::Opening, Word::Header(_)) => !threads,
        (Section::Opening, Word::Thread | Word::Events) => true,
        (Section::Opening, Word::Call(_)) => threads,
        (Section::Events, Word::Event(word)) => !is_submit(word),
        (Section::Events | Section::Recovery, Word::Recover) => true,
        _ => false,
    }
}

fn may_stand(reading: &Reading, word: Word) -> bool
    ensures { result ≡ may_stand reading.now word }
{
    stands_in(reading.section, reading.programs.len() > 0, word)
}

fn stood_before(told: HeaderSoFar, word: Word) -> bool
    ensures { result ≡ stood_before told word }
{
    match word {
        Word::Header(HeaderWord::Number(word)) => is_told(told, word),
        Word::Header(HeaderWord::Elevator) => told.elevator,
        _ => false,
    }
}

fn line_taken(
    alloc: Global,
    reading: Reading,
    line: &[u8],
    word: Word,
    words: &[&[u8]],
) -> Result<Reading, LineError>
    requires { may_stand reading word ≡ true }
    ensures { IsReadAs result (line_taken reading line.now word (map (λ x. x.now) words.now)) }
{
    match word {
        Word::Header(word) => of_kind(header_taken(reading, word, words)),
        Word::Thread => thread_line(alloc, reading, words),
        Word::Call(word) => call_taken(alloc, reading, line, word, words),
        Word::Events => of_kind(events_line(reading, words)),
        Word::Event(word) => event_taken(reading, word, words),
        Word::Recover => recover_taken(alloc, reading, words),
        Word::First(_) | Word::Put => Err(LineError::Kind(ScriptKind::Order)),
    }
}

fn of_kind(read: Result<Reading, ScriptKind>) -> Result<Reading, LineError>
    ensures { IsReadAs result read }
{
    match read {
        Ok(reading) => Ok(reading),
        Err(kind) => Err(LineError::Kind(kind)),
    }
}

// A reading goes by a call: see `body`.
fn later_line(
    alloc: Global,
    reading: Reading,
    line: &[u8],
    word: Option<Word>,
    words: &[&[u8]],
) -> Result<Reading, LineError>
    ensures { IsReadAs result (later_line reading line.now word (map (λ x. x.now) words.now)) }
{
    let Some(word) = word else {
        drop(reading);
        return Err(LineError::Kind(ScriptKind::Word));
    };
    if !may_stand(&reading, word) {
        drop(reading);
        return Err(LineError::Kind(ScriptKind::Order));
    }
    if stood_before(reading.told, word) {
        drop(reading);
        return Err(LineError::Kind(ScriptKind::Twice));
    }
    line_taken(alloc, reading, line, word, words)
}

fn is_behind_events(section: Section) -> bool
    ensures { result ≡ is_behind_events section }
{
    match section {
        Section::Opening => false,
        Section::Events | Section::Recovery => true,
    }
}

fn read_words(
    alloc: Global,
    reading: Option<Reading>,
    line: &[u8],
    words: &[&[u8]],
) -> Result<Reading, LineError>
    ensures { IsReadAs result (read_words reading line.now (map (λ x. x.now) words.now)) }
{
    let [word, rest @ ..] = words else {
        return Err(LineError::Kind(ScriptKind::Word));
    };
    match reading {
        None => of_kind(first_line(alloc, read_word(false, word), rest)),
        Some(reading) => {
            let word = read_word(is_behind_events(reading.section), word);
            later_line(alloc, reading, line, word, rest)
        }
    }
}

fn read_line(
    alloc: Global,
    number: u32,
    reading: Option<Reading>,
    line: &[u8],
) -> Result<Option<Reading>, ScriptError>
    ensures { IsTextReadAs result (read_line number reading line.now) }
{
    if is_skipped(line) {
        return Ok(reading);
    }
    let words = words(alloc, line)?;
    match read_words(alloc, reading, line, &words) {
        Ok(reading) => Ok(Some(reading)),
        Err(fault) => Err(fault_at(number, fault)),
    }
}

fn script_read(reading: Reading) -> SessionScript
    ensures { result ≡ script_read reading }
{
    let Reading {
        inodes,
        zones,
        journal,
        width,
        wide,
        told,
        programs,
        lines,
        events,
        recovers,
        ..
    } = reading;
    SessionScript {
        inodes,
        zones,
        journal,
        width,
        wide,
        header: header_of(told),
        programs,
        lines,
        events,
        recovers,
    }
}

fn ended(number: u32, reading: Option<Reading>) -> Result<SessionScript, ScriptError>
    ensures { IsTextReadAs result (ended number reading) }
{
    let Some(reading) = reading else {
        return Err(ScriptError::Fault(number, ScriptKind::Order));
    };
    match reading.section {
        Section::Opening => Err(ScriptError::Fault(number, ScriptKind::Order)),
        Section::Events | Section::Recovery => Ok(script_read(reading)),
    }
}

fn read_lines(alloc: Global, lines: &[&[u8]]) -> Result<SessionScript, ScriptError>
    requires { length lines.now + 1 < 2 ^ 32 }
    ensures { IsTextReadAs result (read_from 1 None (map (λ x. x.now) lines.now)) }
{
    let mut reading = None;
    let mut number = 1;
    for line in lines {
        reading = read_line(alloc, number, reading, line)?;
        number += 1;
    }
    ended(number, reading)
}
