//! Reads `recover` lines.
ghost use Rattle.std.specs.Prelude.{◌≡◌, map};
ghost use Rattle.script_words.specs.code.Readers.{IsReadAs};
ghost use Rattle.line_grammar.specs.events.SteerLines.{steer_of, steer_taken, all_of, steers_of};

use crate::events::limits::{MOST_DEFAULTS, MOST_STEERS};
use crate::events::steer::{Steer, SteerLine};
use script_words::{LineFault, PLACES, WordsError, numeral};
use std::alloc::Global;

/// Reads the words behind `recover`, or says what is wrong with them.
pub fn read_steers(alloc: Global, words: &[&[u8]]) -> Result<SteerLine, WordsError>
    ensures { IsReadAs result (steers_of (map (λ x. x.now) words.now)) }
{
    if words.len() > MOST_STEERS {
        return Err(WordsError::Fault(LineFault::Spelling));
    }
    read_words(alloc, words)
}

fn read_words(alloc: Global, words: &[&[u8]]) -> Result<SteerLine, WordsError>
    ensures { IsReadAs result (all_of (map (λ x. x.now) words.now)) }
{
    let mut steers = SteerLine::new(alloc);
    let mut is_within = true;
    for word in words {
        match read_steer(word) {
            Ok(steer) => steers.push(steer)?,
            Err(LineFault::Number) => is_within = false,
            Err(LineFault::Spelling) => return Err(WordsError::Fault(LineFault::Spelling)),
        }
    }
    if !is_within {
        return Err(WordsError::Fault(LineFault::Number));
    }
    Ok(steers)
}

fn read_steer(word: &[u8]) -> Result<Steer, LineFault>
    ensures { result ≡ steer_of word.now }
{
    match word {
        [letter, digits @ ..] => steer_taken(*letter, numeral(digits)),
        [] => Err(LineFault::Spelling),
    }
}

fn steer_taken(letter: u8, number: Option<u64>) -> Result<Steer, LineFault>
    ensures { result ≡ steer_taken letter number }
{
    let Some(number) = number else {
        return Err(LineFault::Spelling);
    };
    match letter {
        b't' if number < PLACES => Ok(Steer::Transfer(number as u32)),
        b'p' if number < PLACES => Ok(Steer::Persist(number as u32)),
        b'd' if number <= MOST_DEFAULTS => Ok(Steer::Default(number as u32)),
        b't' | b'p' | b'd' => Err(LineFault::Number),
        _ => Err(LineFault::Spelling),
    }
}
