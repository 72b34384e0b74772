//! The lines of calls in scripts: a call as words, and words as a call.
//!
//! `read_call_word` knows the words that begin such lines, and `read_call` reads the words behind them. What each
//! answers stands in `specs/CallLines.antt`, and what holds of every call that is read in `specs/WellFormed.antt`.
//! The law `calls_are_spelled` ties both to a speller, which is all of `specs/laws/Speller.antt`.
//!
//! Stands on `tree_model` for the calls, on `script_words` for numbers and bytes, and on the kit's `hex`.
mod laws;
mod limits;
mod programs;
mod read;
mod word_table;
mod words;

pub use laws::calls_are_spelled;
pub use limits::{MOST_DIGITS, MOST_LENGTH, OFFSETS};
pub use programs::{LineList, Program, Programs, copy_call};
pub use read::read_call;
pub use word_table::read_call_word;
pub use words::{CallWord, PairWord, PathWord, PlaceWord};
