//! The first line and the header lines, with what a missing one stands for.
ghost use Rattle.std.specs.Prelude.{◌≡◌, ◌≤◌, true, map, is_some};
ghost use Rattle.store_grammar.specs.Grammar.{none_told, new_reading, room_taken, store_line, first_line, told_number, number_fits, with_number, number_taken, header_line, header_taken, header_of};

use crate::limits::MOST_STORE;
use crate::reading::{Reading, Section};
use crate::script::StoreHeader;
use crate::words::{HeaderWord, Word};
use line_grammar::events::{Events, SteerList};
use script_grammar::{
    DEFAULT_DEPTH, DEFAULT_QUEUE, MOST_DEPTH, MOST_QUEUE, MOST_STEPS, MOST_TRANSFERS, ScriptKind,
};
use script_words::numeral;
use std::alloc::Global;
use wal_store::Ops;
use wal_store::calls::fill_count;

/// What the header lines said so far.
#[derive(Clone, Copy, PartialEq, Eq, Debug)]
pub struct HeaderSoFar {
    pub depth: Option<u32>,
    pub queue: Option<u32>,
    pub fail: Option<u64>,
    pub cut: Option<u64>,
}

fn none_told() -> HeaderSoFar
    ensures { result ≡ none_told }
{
    HeaderSoFar {
        depth: None,
        queue: None,
        fail: None,
        cut: None,
    }
}

fn new_reading(alloc: Global, room: u32) -> Reading
    requires { room ≤ MOST_STORE }
    ensures { result ≡ new_reading room }
{
    Reading {
        room,
        told: none_told(),
        section: Section::Header,
        ops: Ops::new(alloc),
        puts: 0,
        calls: fill_count(room) + 2,
        events: Events::new(alloc),
        expanded: 0,
        recovers: SteerList::new(alloc),
    }
}

fn room_taken(alloc: Global, room: Option<u64>) -> Result<Reading, ScriptKind>
    ensures { result ≡ room_taken room }
{
    let Some(room) = room else {
        return Err(ScriptKind::Word);
    };
    if room < 1 || room > MOST_STORE {
        return Err(ScriptKind::Number);
    }
    Ok(new_reading(alloc, room as u32))
}

fn store_line(alloc: Global, words: &[&[u8]]) -> Result<Reading, ScriptKind>
    ensures { result ≡ store_line (map (λ x. x.now) words.now) }
{
    match words {
        [room] => room_taken(alloc, numeral(room)),
        _ => Err(ScriptKind::Word),
    }
}

/// Reads the first line, or says what is wrong with it.
pub fn first_line(alloc: Global, word: Option<Word>, words: &[&[u8]]) -> Result<Reading, ScriptKind>
    ensures { result ≡ first_line word (map (λ x. x.now) words.now) }
{
    match word {
        None => Err(ScriptKind::Word),
        Some(Word::Store) => store_line(alloc, words),
        Some(_) => Err(ScriptKind::Order),
    }
}

/// The header line with this word stood before.
pub fn is_told(told: HeaderSoFar, word: HeaderWord) -> bool
    ensures { result ≡ is_some (told_number told word) }
{
    match word {
        HeaderWord::Depth => told.depth.is_some(),
        HeaderWord::Queue => told.queue.is_some(),
        HeaderWord::Fail => told.fail.is_some(),
        HeaderWord::Cut => told.cut.is_some(),
    }
}

fn number_fits(word: HeaderWord, number: u64) -> bool
    ensures { result ≡ number_fits word number }
{
    match word {
        HeaderWord::Depth => number >= 1 && number <= MOST_DEPTH,
        HeaderWord::Queue => number >= 1 && number <= MOST_QUEUE,
        HeaderWord::Fail => number >= 1 && number <= MOST_TRANSFERS,
        HeaderWord::Cut => number <= MOST_STEPS,
    }
}

fn with_number(told: HeaderSoFar, word: HeaderWord, number: u64) -> HeaderSoFar
    requires { number_fits word number ≡ true }
    ensures { result ≡ with_number told word number }
{
    let mut told = told;
    match word {
        HeaderWord::Depth => told.depth = Some(number as u32),
        HeaderWord::Queue => told.queue = Some(number as u32),
        HeaderWord::Fail => told.fail = Some(number),
        HeaderWord::Cut => told.cut = Some(number),
    }
    told
}

fn number_taken(
    told: HeaderSoFar,
    word: HeaderWord,
    number: Option<u64>,
) -> Result<HeaderSoFar, ScriptKind>
    ensures { result ≡ number_taken told word number }
{
    let Some(number) = number else {
        return Err(ScriptKind::Word);
    };
    if !number_fits(word, number) {
        return Err(ScriptKind::Number);
    }
    Ok(with_number(told, word, number))
}

fn header_line(
    told: HeaderSoFar,
    word: HeaderWord,
    words: &[&[u8]],
) -> Result<HeaderSoFar, ScriptKind>
    ensures { result ≡ header_line told word (map (λ x. x.now) words.now) }
{
    match words {
        [number] => number_taken(told, word, numeral(number)),
        _ => Err(ScriptKind::Word),
    }
}

/// Reads a header line, or says what is wrong with it.
pub fn header_taken(
    mut reading: Reading,
    word: HeaderWord,
    words: &[&[u8]],
) -> Result<Reading, ScriptKind>
    ensures { result ≡ header_taken reading (header_line reading.told word (map (λ x. x.now) words.now)) }
{
    match header_line(reading.told, word, words) {
        Ok(told) => {
            reading.told = told;
            Ok(reading)
        }
        Err(kind) => {
            drop(reading);
            Err(kind)
        }
    }
}

/// The values of the header, with the defaults of lines that are missing.
pub fn header_of(told: HeaderSoFar) -> StoreHeader
    ensures { result ≡ header_of told }
{
    StoreHeader {
        depth: told.depth.unwrap_or(DEFAULT_DEPTH),
        queue: told.queue.unwrap_or(DEFAULT_QUEUE),
        fail: told.fail,
        cut: told.cut,
    }
}
