//! Reads scripts, line by line.
ghost use Rattle.std.specs.Prelude.{◌≡◌, ℕ, ◌+◌, ◌^◌, ◌<◌, ◌≤◌, nat_lt, true, false, None, map, length, IfOk};
ghost use Rattle.script_grammar.specs.Grammar.{form_blocks, is_scheduled, form_of, new_reading, opened, form_line, known_first, first_line, stands_in, needs_scheduler, may_stand, stood_before, count_fits, fits, is_ordered_class, is_barrier_class, put_request, flush_request, with_request, with_events, plain_event, pick_event, after, taken, later_line, read_words, read_line, script_read, ended, read_from, script_of};
ghost use Rattle.script_grammar.specs.code.Rows.{request_of};
ghost use Rattle.script_grammar.specs.WellFormed.{IsWellFormed};
ghost use Rattle.script_grammar.specs.code.Readers.{IsReadAs, IsTextReadAs};

use crate::kinds::ScriptKind;
use crate::limits::{
    DEFAULT_DEPTH, DEFAULT_QUEUE, FEWEST_SEGMENTS, MOST_BLOCKS, MOST_DEPTH, MOST_QUEUE,
    MOST_REQUESTS, MOST_SCRIPT_BYTES, MOST_SEGMENTS, MOST_STEPS, MOST_TRANSFERS,
};
use crate::line_forms::read_line_of;
use crate::reading::{Reading, Section};
use crate::script::{
    Asked, CoreEvent, EventLine, EventWord, Events, Form, Header, RequestList, Row, Script,
};
use crate::script_error::{LineError, ScriptError, fault_at};
use crate::word_table::read_word;
use crate::words::{Class, FirstWord, HeaderWord, Line, PickWord, PlainWord, Word};
use blk_base::NoMemory;
use script_words::{MOST_EVENTS, MOST_REPEATS, PLACES, is_skipped, lines, numeral, words};
use std::alloc::Global;

/// Reads a script, or says its first faulty line and what is wrong with it.
pub fn read_script(alloc: Global, bytes: &[u8]) -> Result<Script, ScriptError>
    requires { length bytes.now ≤ MOST_SCRIPT_BYTES }
    ensures ok { IfOk result (λ s. script_of bytes.now ≡ Ok s) }
    ensures fault { (n : ℕ) (kind : ScriptKind) → result ≡ Err (ScriptError.Fault n kind) → script_of bytes.now ≡ Err (n, kind) }
    ensures well_formed { IfOk result IsWellFormed }
{
    let lines = lines(alloc, bytes)?;
    read_lines(alloc, &lines)
}

fn is_scheduled(form: Form) -> bool
    ensures { result ≡ is_scheduled form }
{
    match form {
        Form::Device(_) => false,
        Form::Blocks(_) => true,
    }
}

fn form_blocks(form: Form) -> u32
    ensures { result ≡ form_blocks form }
{
    match form {
        Form::Device(blocks) | Form::Blocks(blocks) => blocks,
    }
}

fn form_of(scheduled: bool, blocks: u32) -> Form
    ensures { result ≡ form_of scheduled blocks }
{
    if scheduled {
        Form::Blocks(blocks)
    } else {
        Form::Device(blocks)
    }
}

fn new_reading(alloc: Global, form: Form) -> Reading
    ensures { result ≡ new_reading form }
{
    Reading {
        form,
        depth: None,
        queue: None,
        fail: None,
        cut: None,
        elevator: false,
        flash: None,
        section: Section::Header,
        puts: RequestList::new(alloc),
        events: Events::new(alloc),
        expanded: 0,
    }
}

fn opened(alloc: Global, scheduled: bool, blocks: Option<u64>) -> Result<Reading, ScriptKind>
    ensures { result ≡ opened scheduled blocks }
{
    let Some(blocks) = blocks else {
        return Err(ScriptKind::Word);
    };
    if blocks >= 1 && blocks <= MOST_BLOCKS {
        Ok(new_reading(alloc, form_of(scheduled, blocks as u32)))
    } else {
        Err(ScriptKind::Number)
    }
}

fn form_line(alloc: Global, scheduled: bool, words: &[&[u8]]) -> Result<Reading, ScriptKind>
    ensures { result ≡ form_line scheduled (map (λ x. x.now) words.now) }
{
    match words {
        [blocks] => opened(alloc, scheduled, numeral(blocks)),
        _ => Err(ScriptKind::Word),
    }
}

fn known_first(alloc: Global, word: Word, words: &[&[u8]]) -> Result<Reading, ScriptKind>
    ensures { result ≡ known_first word (map (λ x. x.now) words.now) }
{
    match word {
        Word::First(FirstWord::Device) => form_line(alloc, false, words),
        Word::First(FirstWord::Blocks) => form_line(alloc, true, words),
        _ => Err(ScriptKind::Order),
    }
}

fn first_line(alloc: Global, word: Option<Word>, words: &[&[u8]]) -> Result<Reading, ScriptKind>
    ensures { result ≡ first_line word (map (λ x. x.now) words.now) }
{
    let Some(word) = word else {
        return Err(ScriptKind::Word);
    };
    known_first(alloc, word, words)
}

fn stands_in(section: Section, word: Word) -> bool
    ensures { result ≡ stands_in section word }
{
    match (section, word) {
        (Section::Header, Word::Header(_) | Word::Body(_) | Word::Events) => true,
        (Section::Body, Word::Body(_) | Word::Events) => true,
        (Section::Events, Word::Plain(_) | Word::Pick(_)) => true,
        _ => false,
    }
}

fn needs_scheduler(word: Word) -> bool
    ensures { result ≡ needs_scheduler word }
{
    match word {
        Word::Header(HeaderWord::Queue | HeaderWord::Elevator) => true,
        Word::Plain(PlainWord::Submit | PlainWord::Accept) => true,
        Word::Pick(PickWord::Dispatch) => true,
        _ => false,
    }
}

fn may_stand(reading: &Reading, word: Word) -> bool
    ensures { result ≡ may_stand reading.now word }
{
    stands_in(reading.section, word) && (is_scheduled(reading.form) || !needs_scheduler(word))
}

fn stood_before(reading: &Reading, word: Word) -> bool
    ensures { result ≡ stood_before reading.now word }
{
    match word {
        Word::Header(HeaderWord::Depth) => reading.depth.is_some(),
        Word::Header(HeaderWord::Queue) => reading.queue.is_some(),
        Word::Header(HeaderWord::Fail) => reading.fail.is_some(),
        Word::Header(HeaderWord::Cut) => reading.cut.is_some(),
        Word::Header(HeaderWord::Elevator) => reading.elevator,
        Word::Header(HeaderWord::Flash) => reading.flash.is_some(),
        _ => false,
    }
}

fn count_fits(reading: &Reading, count: u64) -> bool
    ensures { result ≡ count_fits reading.now count }
{
    count >= 1 && count <= MOST_REPEATS && reading.expanded.saturating_add(count) <= MOST_EVENTS
}

fn has_room(reading: &Reading) -> bool
    ensures { result ≡ nat_lt (length reading.now.puts) MOST_REQUESTS }
{
    reading.puts.len() < MOST_REQUESTS
}

fn fits(reading: &Reading, line: Line) -> bool
    ensures { result ≡ fits reading.now line }
{
    match line {
        Line::Depth(depth) => depth >= 1 && depth <= MOST_DEPTH,
        Line::Queue(queue) => queue >= 1 && queue <= MOST_QUEUE,
        Line::Fail(transfer) => transfer >= 1 && transfer <= MOST_TRANSFERS,
        Line::Cut(steps) => steps <= MOST_STEPS,
        Line::Flash(segments) => segments >= FEWEST_SEGMENTS && segments <= MOST_SEGMENTS,
        Line::Put { block, .. } => {
            block < u64::from(form_blocks(reading.form)) && has_room(reading)
        }
        Line::Flush => has_room(reading),
        Line::Elevator | Line::Events => true,
        Line::Plain { count, .. } => count_fits(reading, count),
        Line::Pick { pick, count, .. } => pick < PLACES && count_fits(reading, count),
    }
}

fn is_ordered_class(class: Class) -> bool
    ensures { result ≡ is_ordered_class class }
{
    match class {
        Class::Free => false,
        Class::Ordered | Class::Barrier => true,
    }
}

fn is_barrier_class(class: Class) -> bool
    ensures { result ≡ is_barrier_class class }
{
    match class {
        Class::Free | Class::Ordered => false,
        Class::Barrier => true,
    }
}

fn put_row(id: u64, block: u32, value: u8, class: Class) -> Row
    ensures { request_of result ≡ put_request id block value class }
{
    Row {
        id,
        asked: Asked::Put(block, value),
        ordered: is_ordered_class(class),
        barrier: is_barrier_class(class),
    }
}

fn flush_row(id: u64) -> Row
    ensures { request_of result ≡ flush_request id }
{
    Row {
        id,
        asked: Asked::Flush,
        ordered: true,
        barrier: true,
    }
}

fn with_row(mut reading: Reading, row: Row) -> Result<Reading, NoMemory>
    ensures { IfOk result (λ r. r ≡ with_request reading (request_of row)) }
{
    reading.section = Section::Body;
    reading.puts.push(row)?;
    Ok(reading)
}

fn with_events(mut reading: Reading, event: CoreEvent, count: u32) -> Result<Reading, NoMemory>
    requires { reading.expanded + count < 2 ^ 64 }
    ensures { IfOk result (λ r. r ≡ with_events reading event count) }
{
    reading.events.push(EventLine {
        what: EventWord::One(event),
        count,
    })?;
    reading.expanded += u64::from(count);
    Ok(reading)
}

fn plain_event(word: PlainWord) -> CoreEvent
    ensures { result ≡ plain_event word }
{
    match word {
        PlainWord::Submit => CoreEvent::Submit,
        PlainWord::Accept => CoreEvent::Accept,
        PlainWord::Receive => CoreEvent::Receive,
    }
}

fn pick_event(word: PickWord, pick: u32) -> CoreEvent
    ensures { result ≡ pick_event word pick }
{
    match word {
        PickWord::Dispatch => CoreEvent::Dispatch(pick),
        PickWord::Transfer => CoreEvent::Transfer(pick),
        PickWord::Persist => CoreEvent::Persist(pick),
    }
}

fn after(mut reading: Reading, line: Line) -> Result<Reading, NoMemory>
    requires { fits reading line ≡ true }
    ensures { IfOk result (λ r. r ≡ after reading line) }
{
    let id = reading.puts.len() as u64;
    match line {
        Line::Depth(depth) => {
            reading.depth = Some(depth as u32);
            Ok(reading)
        }
        Line::Queue(queue) => {
            reading.queue = Some(queue as u32);
            Ok(reading)
        }
        Line::Fail(transfer) => {
            reading.fail = Some(transfer);
            Ok(reading)
        }
        Line::Cut(steps) => {
            reading.cut = Some(steps);
            Ok(reading)
        }
        Line::Elevator => {
            reading.elevator = true;
            Ok(reading)
        }
        Line::Flash(segments) => {
            reading.flash = Some(segments as u32);
            Ok(reading)
        }
        Line::Put {
            block,
            value,
            class,
        } => with_row(reading, put_row(id, block as u32, value, class)),
        Line::Flush => with_row(reading, flush_row(id)),
        Line::Events => {
            reading.section = Section::Events;
            Ok(reading)
        }
        Line::Plain { word, count } => with_events(reading, plain_event(word), count as u32),
        Line::Pick { word, pick, count } => {
            with_events(reading, pick_event(word, pick as u32), count as u32)
        }
    }
}

fn taken(reading: Reading, line: Option<Line>) -> Result<Reading, LineError>
    ensures { IsReadAs result (taken reading line) }
{
    let Some(line) = line else {
        return Err(LineError::Kind(ScriptKind::Word));
    };
    if !fits(&reading, line) {
        return Err(LineError::Kind(ScriptKind::Number));
    }
    Ok(after(reading, line)?)
}

fn later_line(reading: Reading, word: Option<Word>, words: &[&[u8]]) -> Result<Reading, LineError>
    ensures { IsReadAs result (later_line reading word (map (λ x. x.now) words.now)) }
{
    let Some(word) = word else {
        return Err(LineError::Kind(ScriptKind::Word));
    };
    if !may_stand(&reading, word) {
        return Err(LineError::Kind(ScriptKind::Order));
    }
    if stood_before(&reading, word) {
        return Err(LineError::Kind(ScriptKind::Twice));
    }
    taken(reading, read_line_of(word, words))
}

fn read_words(
    alloc: Global,
    reading: Option<Reading>,
    words: &[&[u8]],
) -> Result<Reading, LineError>
    ensures { IsReadAs result (read_words reading (map (λ x. x.now) words.now)) }
{
    let [word, rest @ ..] = words else {
        return Err(LineError::Kind(ScriptKind::Word));
    };
    let word = read_word(word);
    match reading {
        None => match first_line(alloc, word, rest) {
            Ok(reading) => Ok(reading),
            Err(kind) => Err(LineError::Kind(kind)),
        },
        Some(reading) => later_line(reading, word, rest),
    }
}

fn read_line(
    alloc: Global,
    number: u32,
    reading: Option<Reading>,
    line: &[u8],
) -> Result<Option<Reading>, ScriptError>
    ensures { IsTextReadAs result (read_line number reading line.now) }
{
    if is_skipped(line) {
        return Ok(reading);
    }
    let words = words(alloc, line)?;
    match read_words(alloc, reading, &words) {
        Ok(reading) => Ok(Some(reading)),
        Err(fault) => Err(fault_at(number, fault)),
    }
}

fn script_read(reading: Reading) -> Script
    ensures { result ≡ script_read reading }
{
    let Reading {
        form,
        depth,
        queue,
        fail,
        cut,
        elevator,
        flash,
        puts,
        events,
        ..
    } = reading;
    Script {
        kind: form,
        header: Header {
            depth: depth.unwrap_or(DEFAULT_DEPTH),
            queue: queue.unwrap_or(DEFAULT_QUEUE),
            fail,
            cut,
            elevator,
            flash,
        },
        puts,
        events,
    }
}

fn ended(number: u32, reading: Option<Reading>) -> Result<Script, ScriptError>
    ensures { IsTextReadAs result (ended number reading) }
{
    let Some(reading) = reading else {
        return Err(ScriptError::Fault(number, ScriptKind::Order));
    };
    match reading.section {
        Section::Events => Ok(script_read(reading)),
        _ => Err(ScriptError::Fault(number, ScriptKind::Order)),
    }
}

fn read_lines(alloc: Global, lines: &[&[u8]]) -> Result<Script, ScriptError>
    requires { length lines.now + 1 < 2 ^ 32 }
    ensures { IsTextReadAs result (read_from 1 None (map (λ x. x.now) lines.now)) }
{
    let mut reading = None;
    let mut number = 1;
    for line in lines {
        reading = read_line(alloc, number, reading, line)?;
        number += 1;
    }
    ended(number, reading)
}
