//! The first line of a volume script.
ghost use Rattle.std.specs.Prelude.{◌≡◌, ◌≢◌, map};
ghost use Rattle.session_grammar.specs.Grammar.{are_sizes, have_geometry, new_reading, opened, sizes_taken, form_with, form_told, wide_told, journal_line, zones_line, volume_line, known_first, first_line};

use crate::header::none_told;
use crate::limits::JOURNALS;
use crate::reading::{Reading, Section, VolumeForm};
use crate::words::Word;
use line_grammar::calls::{LineList, Programs};
use line_grammar::events::{Events, SteerList};
use minix_layout::{DEFAULT_WIDTH, Geometry, LEAST_JOURNAL, MOST_JOURNAL, MOST_NUMBERED};
use script_grammar::{FirstWord, ScriptKind};
use script_words::numeral;
use std::alloc::Global;

fn are_sizes(inodes: u64, zones: u64, journal: u64) -> bool
    ensures { result ≡ are_sizes inodes zones journal }
{
    inodes >= 1
        && inodes <= MOST_NUMBERED
        && zones >= 1
        && zones <= MOST_NUMBERED
        && journal < JOURNALS
}

// The tables of a volume are as large with any width of names.
fn have_geometry(inodes: u16, zones: u16, journal: u32) -> bool
    requires { inodes ≢ 0 }
    ensures { result ≡ have_geometry inodes zones journal }
{
    Geometry::make(inodes, zones, DEFAULT_WIDTH).is_ok()
        && journal >= LEAST_JOURNAL
        && journal <= MOST_JOURNAL
}

fn new_reading(alloc: Global, inodes: u16, zones: u16, journal: u32, form: VolumeForm) -> Reading
    ensures { result ≡ new_reading inodes zones journal form }
{
    Reading {
        inodes,
        zones,
        journal,
        width: form.width,
        wide: form.wide,
        told: none_told(),
        section: Section::Opening,
        programs: Programs::new(alloc),
        lines: LineList::new(alloc),
        events: Events::new(alloc),
        expanded: 0,
        recovers: SteerList::new(alloc),
    }
}

fn sizes_taken(
    alloc: Global,
    inodes: u64,
    zones: u64,
    journal: u64,
    form: VolumeForm,
) -> Result<Reading, ScriptKind>
    ensures { result ≡ sizes_taken inodes zones journal form }
{
    if !are_sizes(inodes, zones, journal) {
        return Err(ScriptKind::Number);
    }
    let (inodes, zones, journal) = (inodes as u16, zones as u16, journal as u32);
    if !have_geometry(inodes, zones, journal) {
        return Err(ScriptKind::Geometry);
    }
    Ok(new_reading(alloc, inodes, zones, journal, form))
}

fn opened(
    alloc: Global,
    inodes: Option<u64>,
    zones: Option<u64>,
    journal: Option<u64>,
    form: Option<VolumeForm>,
) -> Result<Reading, ScriptKind>
    ensures { result ≡ opened inodes zones journal form }
{
    let (Some(inodes), Some(zones), Some(journal), Some(form)) = (inodes, zones, journal, form)
    else {
        return Err(ScriptKind::Word);
    };
    sizes_taken(alloc, inodes, zones, journal, form)
}

fn wide_told(words: &[&[u8]]) -> Option<bool>
    ensures { result ≡ wide_told (map (λ x. x.now) words.now) }
{
    match words {
        [] => Some(false),
        [tags, bits] => {
            if *tags == b"tags".as_slice() && *bits == b"64".as_slice() {
                Some(true)
            } else {
                None
            }
        }
        _ => None,
    }
}

fn form_with(width: u16, wide: Option<bool>) -> Option<VolumeForm>
    ensures { result ≡ form_with width wide }
{
    let wide = wide?;
    Some(VolumeForm { width, wide })
}

#[tactic(auto, using(crate::proofs::Others::form_of_few))]
fn form_told(words: &[&[u8]]) -> Option<VolumeForm>
    ensures { result ≡ form_told (map (λ x. x.now) words.now) }
{
    let [names, bytes, rest @ ..] = words else {
        return form_with(DEFAULT_WIDTH, wide_told(words));
    };
    if *names == b"names".as_slice() && *bytes == b"30".as_slice() {
        form_with(30, wide_told(rest))
    } else {
        form_with(DEFAULT_WIDTH, wide_told(words))
    }
}

#[tactic(auto, using(crate::proofs::Others::journal_of_few))]
fn journal_line(
    alloc: Global,
    inodes: Option<u64>,
    zones: Option<u64>,
    words: &[&[u8]],
) -> Result<Reading, ScriptKind>
    ensures { result ≡ journal_line inodes zones (map (λ x. x.now) words.now) }
{
    let [j, journal, rest @ ..] = words else {
        return Err(ScriptKind::Word);
    };
    if *j == b"journal".as_slice() {
        opened(alloc, inodes, zones, numeral(journal), form_told(rest))
    } else {
        Err(ScriptKind::Word)
    }
}

#[tactic(auto, using(crate::proofs::Others::zones_of_few))]
fn zones_line(alloc: Global, inodes: Option<u64>, words: &[&[u8]]) -> Result<Reading, ScriptKind>
    ensures { result ≡ zones_line inodes (map (λ x. x.now) words.now) }
{
    let [z, zones, rest @ ..] = words else {
        return Err(ScriptKind::Word);
    };
    if *z == b"zones".as_slice() {
        journal_line(alloc, inodes, numeral(zones), rest)
    } else {
        Err(ScriptKind::Word)
    }
}

#[tactic(auto, using(crate::proofs::Others::volume_of_few))]
fn volume_line(alloc: Global, words: &[&[u8]]) -> Result<Reading, ScriptKind>
    ensures { result ≡ volume_line (map (λ x. x.now) words.now) }
{
    let [i, inodes, rest @ ..] = words else {
        return Err(ScriptKind::Word);
    };
    if *i == b"inodes".as_slice() {
        zones_line(alloc, numeral(inodes), rest)
    } else {
        Err(ScriptKind::Word)
    }
}

fn known_first(alloc: Global, word: Word, words: &[&[u8]]) -> Result<Reading, ScriptKind>
    ensures { result ≡ known_first word (map (λ x. x.now) words.now) }
{
    match word {
        Word::First(FirstWord::Volume) => volume_line(alloc, words),
        _ => Err(ScriptKind::Order),
    }
}

/// Reads the first line, or says what is wrong with it.
pub fn first_line(alloc: Global, word: Option<Word>, words: &[&[u8]]) -> Result<Reading, ScriptKind>
    ensures { result ≡ first_line word (map (λ x. x.now) words.now) }
{
    let Some(word) = word else {
        return Err(ScriptKind::Word);
    };
    known_first(alloc, word, words)
}
