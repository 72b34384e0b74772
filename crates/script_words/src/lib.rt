//! Lines, words and numbers of scripts, below the grammar.
//!
//! Stands on `blk_base`, and on `byte_text` for its laws. `lines` and `words` cut a text, `numeral` and
//! `hex_byte` read words, `count_of` those that say how often; `specs/Spelling.antt` says what each answers. The
//! law `numbers_are_spelled` ties what is read to how it is written, and `texts_are_cut` the lines and words to a
//! text of them. `limits.rt` has the limits that event lines of all scripts have.
#![tactic(auto)]

mod laws;
mod limits;
mod line_error;
mod spelling;

pub use laws::{numbers_are_spelled, texts_are_cut};
pub use limits::{MOST_EVENTS, MOST_REPEATS, PLACES};
pub use line_error::{LineFault, WordsError};
pub use spelling::{count_of, hex_byte, is_skipped, lines, numeral, words};
