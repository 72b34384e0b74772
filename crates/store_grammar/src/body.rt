//! Puts, flushes, event lines and `recover` lines.
ghost use Rattle.std.specs.Prelude.{◌≡◌, ◌<◌, [], true, map, IfOk};
ghost use Rattle.script_grammar.specs.code.Readers.{IsReadAs};
ghost use Rattle.line_grammar.specs.events.EventLines.{event_of};
ghost use Rattle.line_grammar.specs.events.SteerLines.{steers_of};
ghost use Rattle.session_grammar.specs.Grammar.{kind_of, names_thread, weight};
ghost use Rattle.session_grammar.specs.code.Readers.{line_error};
ghost use Rattle.wal_store.specs.Puts.{is_key, is_value};
ghost use Rattle.wal_store.specs.declared.puts.Op.TheVariants as op;
ghost use Rattle.store_grammar.specs.Grammar.{with_put, put_fits, put_added, put_line, with_flush, flush_line, events_line, event_fits, with_event, event_added, event_taken, with_recover, recover_added, recover_taken};

use crate::reading::{Reading, Section};
use blk_base::NoMemory;
use line_grammar::events::{
    CoreEvent, EventFirst, EventLine, EventWord, SteerLine, read_event, read_steers,
};
use script_grammar::{LineError, ScriptKind};
use script_words::{LineFault, MOST_EVENTS, WordsError};
use session_grammar::{MOST_CALLS, MOST_RECOVERS};
use std::alloc::Global;
use wal_store::{Op, Put, Text, is_key, is_value};

fn kind_of(fault: LineFault) -> ScriptKind
    ensures { result ≡ kind_of fault }
{
    match fault {
        LineFault::Spelling => ScriptKind::Word,
        LineFault::Number => ScriptKind::Number,
    }
}

fn line_error(error: WordsError) -> LineError
    ensures { result ≡ line_error error }
{
    match error {
        WordsError::Fault(fault) => LineError::Kind(kind_of(fault)),
        WordsError::NoMemory => LineError::NoMemory,
    }
}

fn put_fits(reading: &Reading) -> bool
    ensures { result ≡ put_fits reading.now }
{
    reading.puts < reading.room && reading.calls as usize + 2 <= MOST_CALLS
}

// Here and below a reading goes by a call: a drop that is written out in place is dear to prove.
fn with_put(mut reading: Reading, put: Put) -> Result<Reading, NoMemory>
    requires { put_fits reading ≡ true }
    ensures { IfOk result (λ r. r ≡ with_put reading put) }
{
    match reading.ops.push(Op::Put(put)) {
        Ok(()) => {
            reading.section = Section::Asking;
            reading.puts += 1;
            reading.calls += 2;
            Ok(reading)
        }
        Err(NoMemory) => {
            drop(reading);
            Err(NoMemory)
        }
    }
}

fn put_added(reading: Reading, put: Put) -> Result<Reading, LineError>
    ensures { IsReadAs result (put_added reading put) }
{
    if !put_fits(&reading) {
        drop(reading);
        drop(put);
        return Err(LineError::Kind(ScriptKind::Number));
    }
    Ok(with_put(reading, put)?)
}

fn put_of(alloc: Global, key: &[u8], value: &[u8]) -> Result<Put, NoMemory>
    ensures { IfOk result (λ p. p ≡ record { key = key.now; value = value.now }) }
{
    let key = Text::of(key.to_vec(alloc)?);
    let value = Text::of(value.to_vec(alloc)?);
    Ok(Put { key, value })
}

/// Reads the line of a put, or says what is wrong with it.
#[tactic(auto, using(crate::proofs::Others::put_of_few, crate::proofs::Others::put_of_many))]
pub fn put_line(alloc: Global, reading: Reading, words: &[&[u8]]) -> Result<Reading, LineError>
    ensures { IsReadAs result (put_line reading (map (λ x. x.now) words.now)) }
{
    let [key, value] = words else {
        drop(reading);
        return Err(LineError::Kind(ScriptKind::Word));
    };
    if !is_key(key) || !is_value(value) {
        drop(reading);
        return Err(LineError::Kind(ScriptKind::Word));
    }
    match put_of(alloc, key, value) {
        Ok(put) => put_added(reading, put),
        Err(NoMemory) => {
            drop(reading);
            Err(LineError::NoMemory)
        }
    }
}

fn with_flush(mut reading: Reading) -> Result<Reading, NoMemory>
    requires { reading.calls < MOST_CALLS }
    ensures { IfOk result (λ r. r ≡ with_flush reading) }
{
    match reading.ops.push(Op::Flush) {
        Ok(()) => {
            reading.section = Section::Asking;
            reading.calls += 1;
            Ok(reading)
        }
        Err(NoMemory) => {
            drop(reading);
            Err(NoMemory)
        }
    }
}

fn flush_added(reading: Reading) -> Result<Reading, LineError>
    ensures { IsReadAs result (flush_line reading []) }
{
    if reading.calls as usize >= MOST_CALLS {
        drop(reading);
        return Err(LineError::Kind(ScriptKind::Number));
    }
    Ok(with_flush(reading)?)
}

/// Reads the line of a flush, or says what is wrong with it.
pub fn flush_line(reading: Reading, words: &[&[u8]]) -> Result<Reading, LineError>
    ensures { IsReadAs result (flush_line reading (map (λ x. x.now) words.now)) }
{
    match words {
        [] => flush_added(reading),
        _ => {
            drop(reading);
            Err(LineError::Kind(ScriptKind::Word))
        }
    }
}

/// Reads the line in front of the event lines, or says what is wrong with it.
pub fn events_line(mut reading: Reading, words: &[&[u8]]) -> Result<Reading, ScriptKind>
    ensures { result ≡ events_line reading (map (λ x. x.now) words.now) }
{
    match words {
        [] => {
            reading.section = Section::Events;
            Ok(reading)
        }
        _ => Err(ScriptKind::Word),
    }
}

fn names_thread(what: EventWord) -> bool
    ensures { result ≡ names_thread 1 what }
{
    match what {
        EventWord::One(CoreEvent::Call(thread)) => thread == 1,
        _ => true,
    }
}

// No product and no sum of these numbers passes 128 bits.
fn weight(line: EventLine) -> u128
    ensures { result ≡ weight 1 line }
{
    let count = u128::from(line.count);
    match line.what {
        EventWord::One(_) => count,
        EventWord::Round => count * 9,
        EventWord::Back => count * 8,
    }
}

fn event_fits(reading: &Reading, line: EventLine) -> bool
    ensures { result ≡ event_fits reading.now line }
{
    names_thread(line.what)
        && weight(line).saturating_add(u128::from(reading.expanded)) <= u128::from(MOST_EVENTS)
}

fn with_event(mut reading: Reading, line: EventLine) -> Result<Reading, NoMemory>
    requires { event_fits reading line ≡ true }
    ensures { IfOk result (λ r. r ≡ with_event reading line) }
{
    let more = weight(line) as u64;
    match reading.events.push(line) {
        Ok(()) => {
            reading.expanded += more;
            Ok(reading)
        }
        Err(NoMemory) => {
            drop(reading);
            Err(NoMemory)
        }
    }
}

fn event_added(reading: Reading, line: EventLine) -> Result<Reading, LineError>
    ensures { IsReadAs result (event_added reading line) }
{
    if !event_fits(&reading, line) {
        drop(reading);
        return Err(LineError::Kind(ScriptKind::Number));
    }
    Ok(with_event(reading, line)?)
}

/// Reads an event line, or says what is wrong with it.
pub fn event_taken(
    reading: Reading,
    word: EventFirst,
    words: &[&[u8]],
) -> Result<Reading, LineError>
    ensures { IsReadAs result (event_taken reading (event_of word (map (λ x. x.now) words.now))) }
{
    match read_event(word, words) {
        Ok(line) => event_added(reading, line),
        Err(fault) => {
            drop(reading);
            Err(LineError::Kind(kind_of(fault)))
        }
    }
}

fn with_recover(mut reading: Reading, line: SteerLine) -> Result<Reading, NoMemory>
    ensures { IfOk result (λ r. r ≡ with_recover reading line) }
{
    reading.section = Section::Recovery;
    match reading.recovers.push(line) {
        Ok(()) => Ok(reading),
        Err(NoMemory) => {
            drop(reading);
            Err(NoMemory)
        }
    }
}

fn recover_added(reading: Reading, line: SteerLine) -> Result<Reading, LineError>
    ensures { IsReadAs result (recover_added reading line) }
{
    if reading.recovers.len() >= MOST_RECOVERS {
        drop(reading);
        drop(line);
        return Err(LineError::Kind(ScriptKind::Number));
    }
    Ok(with_recover(reading, line)?)
}

/// Reads the words of a `recover` line, or says what is wrong with them.
pub fn recover_taken(alloc: Global, reading: Reading, words: &[&[u8]]) -> Result<Reading, LineError>
    ensures { IsReadAs result (recover_taken reading (steers_of (map (λ x. x.now) words.now))) }
{
    match read_steers(alloc, words) {
        Ok(line) => recover_added(reading, line),
        Err(error) => {
            drop(reading);
            Err(line_error(error))
        }
    }
}
