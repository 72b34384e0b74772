//! Header lines: their limits and defaults.
ghost use Rattle.std.specs.Prelude.{◌≡◌, true, map, is_some};
ghost use Rattle.session_grammar.specs.Grammar.{none_told, told_number, number_fits, with_number, number_taken, header_line, header_taken, header_of};

use crate::limits::{DEFAULT_LIMIT, DEFAULT_SEED, MOST_SEED, MOST_SESSION};
use crate::reading::Reading;
use crate::session_script::SessionHeader;
use crate::words::{HeaderWord, NumberWord};
use script_grammar::{
    DEFAULT_DEPTH, DEFAULT_QUEUE, FEWEST_SEGMENTS, MOST_DEPTH, MOST_QUEUE, MOST_SEGMENTS,
    MOST_STEPS, MOST_TRANSFERS, ScriptKind,
};
use script_words::numeral;

/// What the header lines said so far.
#[derive(Clone, Copy, PartialEq, Eq, Debug)]
pub struct HeaderSoFar {
    pub depth: Option<u32>,
    pub queue: Option<u32>,
    pub limit: Option<u64>,
    pub fail: Option<u64>,
    pub cut: Option<u64>,
    pub seed: Option<u64>,
    /// The line `elevator` stood.
    pub elevator: bool,
    pub flash: Option<u32>,
}

/// No header line stood yet.
pub fn none_told() -> HeaderSoFar
    ensures { result ≡ none_told }
{
    HeaderSoFar {
        depth: None,
        queue: None,
        limit: None,
        fail: None,
        cut: None,
        seed: None,
        elevator: false,
        flash: None,
    }
}

/// The header line with this word stood before.
pub fn is_told(told: HeaderSoFar, word: NumberWord) -> bool
    ensures { result ≡ is_some (told_number told word) }
{
    match word {
        NumberWord::Depth => told.depth.is_some(),
        NumberWord::Queue => told.queue.is_some(),
        NumberWord::Limit => told.limit.is_some(),
        NumberWord::Fail => told.fail.is_some(),
        NumberWord::Cut => told.cut.is_some(),
        NumberWord::Seed => told.seed.is_some(),
        NumberWord::Flash => told.flash.is_some(),
    }
}

fn number_fits(word: NumberWord, number: u64) -> bool
    ensures { result ≡ number_fits word number }
{
    match word {
        NumberWord::Depth => number >= 1 && number <= MOST_DEPTH,
        NumberWord::Queue => number >= 1 && number <= MOST_QUEUE,
        NumberWord::Limit => number >= 1 && number <= MOST_SESSION,
        NumberWord::Fail => number >= 1 && number <= MOST_TRANSFERS,
        NumberWord::Cut => number <= MOST_STEPS,
        NumberWord::Seed => number <= MOST_SEED,
        NumberWord::Flash => number >= FEWEST_SEGMENTS && number <= MOST_SEGMENTS,
    }
}

fn with_number(told: HeaderSoFar, word: NumberWord, number: u64) -> HeaderSoFar
    requires { number_fits word number ≡ true }
    ensures { result ≡ with_number told word number }
{
    let mut told = told;
    match word {
        NumberWord::Depth => told.depth = Some(number as u32),
        NumberWord::Queue => told.queue = Some(number as u32),
        NumberWord::Limit => told.limit = Some(number),
        NumberWord::Fail => told.fail = Some(number),
        NumberWord::Cut => told.cut = Some(number),
        NumberWord::Seed => told.seed = Some(number),
        NumberWord::Flash => told.flash = Some(number as u32),
    }
    told
}

fn number_taken(
    told: HeaderSoFar,
    word: NumberWord,
    number: Option<u64>,
) -> Result<HeaderSoFar, ScriptKind>
    ensures { result ≡ number_taken told word number }
{
    let Some(number) = number else {
        return Err(ScriptKind::Word);
    };
    if !number_fits(word, number) {
        return Err(ScriptKind::Number);
    }
    Ok(with_number(told, word, number))
}

fn header_line(
    told: HeaderSoFar,
    word: HeaderWord,
    words: &[&[u8]],
) -> Result<HeaderSoFar, ScriptKind>
    ensures { result ≡ header_line told word (map (λ x. x.now) words.now) }
{
    match (word, words) {
        (HeaderWord::Number(word), [number]) => number_taken(told, word, numeral(number)),
        (HeaderWord::Elevator, []) => Ok(HeaderSoFar {
            elevator: true,
            ..told
        }),
        _ => Err(ScriptKind::Word),
    }
}

/// Reads a header line, or says what is wrong with it.
pub fn header_taken(
    mut reading: Reading,
    word: HeaderWord,
    words: &[&[u8]],
) -> Result<Reading, ScriptKind>
    ensures { result ≡ header_taken reading (header_line reading.told word (map (λ x. x.now) words.now)) }
{
    reading.told = header_line(reading.told, word, words)?;
    Ok(reading)
}

/// The values of the header, with the defaults of lines that are missing.
pub fn header_of(told: HeaderSoFar) -> SessionHeader
    ensures { result ≡ header_of told }
{
    SessionHeader {
        depth: told.depth.unwrap_or(DEFAULT_DEPTH),
        queue: told.queue.unwrap_or(DEFAULT_QUEUE),
        limit: told.limit.unwrap_or(DEFAULT_LIMIT),
        fail: told.fail,
        cut: told.cut,
        seed: told.seed.unwrap_or(DEFAULT_SEED),
        elevator: told.elevator,
        flash: told.flash,
    }
}
