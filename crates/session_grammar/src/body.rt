//! Threads with their calls, event lines and `recover` lines.
ghost use Rattle.std.specs.Prelude.{◌≡◌, ◌+◌, ◌++◌, ◌∷◌, ◌<◌, ◌≤◌, ◌^◌, [], nat_le, true, map, length, IfOk, OnOk};
ghost use Rattle.script_grammar.specs.code.Readers.{IsReadAs};
ghost use Rattle.line_grammar.specs.calls.CallLines.{call_of};
ghost use Rattle.line_grammar.specs.calls.Programs.{pushed_last};
ghost use Rattle.line_grammar.specs.events.EventLines.{event_of};
ghost use Rattle.line_grammar.specs.events.SteerLines.{steers_of};
ghost use Rattle.session_grammar.specs.code.Readers.{line_error};
ghost use Rattle.session_grammar.specs.Grammar.{kind_of, with_thread, thread_taken, thread_line, with_call, call_added, call_taken, events_line, names_thread, weight, event_fits, with_event, event_added, event_taken, with_recover, recover_added, recover_taken};

use crate::limits::{MOST_CALLS, MOST_RECOVERS, MOST_THREADS};
use crate::reading::{Reading, Section};
use blk_base::NoMemory;
use line_grammar::calls::{CallWord, LineList, Program, Programs, read_call};
use line_grammar::events::{
    CoreEvent, EventFirst, EventLine, EventWord, SteerLine, read_event, read_steers,
};
use script_grammar::{LineError, ScriptKind};
use script_words::{LineFault, MOST_EVENTS, WordsError, numeral};
use std::alloc::Global;
use tree_model::{ByteList, Call};

fn kind_of(fault: LineFault) -> ScriptKind
    ensures { result ≡ kind_of fault }
{
    match fault {
        LineFault::Spelling => ScriptKind::Word,
        LineFault::Number => ScriptKind::Number,
    }
}

fn line_error(error: WordsError) -> LineError
    ensures { result ≡ line_error error }
{
    match error {
        WordsError::Fault(fault) => LineError::Kind(kind_of(fault)),
        WordsError::NoMemory => LineError::NoMemory,
    }
}

// Here and below a reading goes by a call: a drop that is written out in place is dear to prove.
fn with_thread(alloc: Global, mut reading: Reading) -> Result<Reading, NoMemory>
    ensures { IfOk result (λ r. r ≡ with_thread reading) }
{
    match reading.programs.push(Program::new(alloc)) {
        Ok(()) => Ok(reading),
        Err(NoMemory) => {
            drop(reading);
            Err(NoMemory)
        }
    }
}

fn thread_taken(alloc: Global, reading: Reading, number: Option<u64>) -> Result<Reading, LineError>
    ensures { IsReadAs result (thread_taken reading number) }
{
    let Some(number) = number else {
        drop(reading);
        return Err(LineError::Kind(ScriptKind::Word));
    };
    let threads = reading.programs.len();
    if threads >= MOST_THREADS || number != threads as u64 + 1 {
        drop(reading);
        return Err(LineError::Kind(ScriptKind::Number));
    }
    Ok(with_thread(alloc, reading)?)
}

/// Reads the line that begins a thread, or says what is wrong with it.
pub fn thread_line(alloc: Global, reading: Reading, words: &[&[u8]]) -> Result<Reading, LineError>
    ensures { IsReadAs result (thread_line reading (map (λ x. x.now) words.now)) }
{
    let [number] = words else {
        return Err(LineError::Kind(ScriptKind::Word));
    };
    thread_taken(alloc, reading, numeral(number))
}

fn push_line(alloc: Global, lines: &mut LineList, line: &[u8]) -> Result<(), NoMemory>
    ensures { OnOk result (lines.new ≡ lines.old ++ line.now ∷ []) }
{
    lines.push(ByteList::of(line.to_vec(alloc)?))
}

fn put_call(
    alloc: Global,
    programs: &mut Programs,
    lines: &mut LineList,
    line: &[u8],
    call: Call,
) -> Result<(), NoMemory>
    requires { 0 < length programs.old }
    ensures programs { OnOk result (programs.new ≡ pushed_last programs.old call) }
    ensures lines { OnOk result (lines.new ≡ lines.old ++ line.now ∷ []) }
{
    programs.push_call(call)?;
    push_line(alloc, lines, line)
}

fn with_call(
    alloc: Global,
    mut reading: Reading,
    line: &[u8],
    call: Call,
) -> Result<Reading, NoMemory>
    requires { 0 < length reading.programs }
    ensures { IfOk result (λ r. r ≡ with_call reading line.now call) }
{
    match put_call(alloc, &mut reading.programs, &mut reading.lines, line, call) {
        Ok(()) => Ok(reading),
        Err(NoMemory) => {
            drop(reading);
            Err(NoMemory)
        }
    }
}

fn call_added(
    alloc: Global,
    reading: Reading,
    line: &[u8],
    call: Call,
) -> Result<Reading, LineError>
    requires { 0 < length reading.programs }
    ensures { IsReadAs result (call_added reading line.now call) }
{
    if reading.programs.last_len() >= MOST_CALLS {
        drop(reading);
        drop(call);
        return Err(LineError::Kind(ScriptKind::Number));
    }
    Ok(with_call(alloc, reading, line, call)?)
}

/// Reads the line of a call, or says what is wrong with it.
pub fn call_taken(
    alloc: Global,
    reading: Reading,
    line: &[u8],
    word: CallWord,
    words: &[&[u8]],
) -> Result<Reading, LineError>
    requires { 0 < length reading.programs }
    ensures { IsReadAs result (call_taken reading line.now (call_of word (map (λ x. x.now) words.now))) }
{
    match read_call(alloc, word, words) {
        Ok(call) => call_added(alloc, reading, line, call),
        Err(error) => Err(line_error(error)),
    }
}

/// Reads the line behind the threads, or says what is wrong with it.
pub fn events_line(mut reading: Reading, words: &[&[u8]]) -> Result<Reading, ScriptKind>
    ensures { result ≡ events_line reading (map (λ x. x.now) words.now) }
{
    match words {
        [] => {
            reading.section = Section::Events;
            Ok(reading)
        }
        _ => Err(ScriptKind::Word),
    }
}

fn names_thread(threads: usize, what: EventWord) -> bool
    ensures { result ≡ names_thread threads what }
{
    match what {
        EventWord::One(CoreEvent::Call(thread)) => thread >= 1 && thread as usize <= threads,
        _ => true,
    }
}

// No product and no sum of these numbers passes 128 bits.
fn weight(threads: usize, line: EventLine) -> u128
    ensures { result ≡ weight threads line }
{
    let count = u128::from(line.count);
    match line.what {
        EventWord::One(_) => count,
        EventWord::Round => count * (threads as u128 + 8),
        EventWord::Back => count * 8,
    }
}

fn event_fits(reading: &Reading, line: EventLine) -> bool
    ensures { result ≡ event_fits reading.now line }
{
    let threads = reading.programs.len();
    names_thread(threads, line.what)
        && weight(threads, line).saturating_add(u128::from(reading.expanded))
            <= u128::from(MOST_EVENTS)
}

fn with_event(mut reading: Reading, line: EventLine) -> Result<Reading, NoMemory>
    requires { event_fits reading line ≡ true }
    ensures { IfOk result (λ r. r ≡ with_event reading line) }
{
    let more = weight(reading.programs.len(), line) as u64;
    match reading.events.push(line) {
        Ok(()) => {
            reading.expanded += more;
            Ok(reading)
        }
        Err(NoMemory) => {
            drop(reading);
            Err(NoMemory)
        }
    }
}

fn event_added(reading: Reading, line: EventLine) -> Result<Reading, LineError>
    ensures { IsReadAs result (event_added reading line) }
{
    if !event_fits(&reading, line) {
        drop(reading);
        return Err(LineError::Kind(ScriptKind::Number));
    }
    Ok(with_event(reading, line)?)
}

/// Reads an event line, or says what is wrong with it.
pub fn event_taken(
    reading: Reading,
    word: EventFirst,
    words: &[&[u8]],
) -> Result<Reading, LineError>
    ensures { IsReadAs result (event_taken reading (event_of word (map (λ x. x.now) words.now))) }
{
    match read_event(word, words) {
        Ok(line) => event_added(reading, line),
        Err(fault) => Err(LineError::Kind(kind_of(fault))),
    }
}

fn with_recover(mut reading: Reading, line: SteerLine) -> Result<Reading, NoMemory>
    ensures { IfOk result (λ r. r ≡ with_recover reading line) }
{
    reading.section = Section::Recovery;
    match reading.recovers.push(line) {
        Ok(()) => Ok(reading),
        Err(NoMemory) => {
            drop(reading);
            Err(NoMemory)
        }
    }
}

fn recover_added(reading: Reading, line: SteerLine) -> Result<Reading, LineError>
    ensures { IsReadAs result (recover_added reading line) }
{
    if reading.recovers.len() >= MOST_RECOVERS {
        drop(reading);
        drop(line);
        return Err(LineError::Kind(ScriptKind::Number));
    }
    Ok(with_recover(reading, line)?)
}

/// Reads the words of a `recover` line, or says what is wrong with them.
pub fn recover_taken(alloc: Global, reading: Reading, words: &[&[u8]]) -> Result<Reading, LineError>
    ensures { IsReadAs result (recover_taken reading (steers_of (map (λ x. x.now) words.now))) }
{
    match read_steers(alloc, words) {
        Ok(line) => recover_added(reading, line),
        Err(error) => Err(line_error(error)),
    }
}
