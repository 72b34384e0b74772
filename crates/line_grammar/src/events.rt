//! The event lines and the `recover` lines of scripts.
//!
//! `read_event_word` knows the words that begin event lines, `read_event` reads the words behind them, and
//! `read_steers` those behind `recover`. What each answers stands in `specs/EventLines.antt` and
//! `specs/SteerLines.antt`, and what holds of all that is read in `specs/WellFormed.antt`. The laws
//! `events_are_spelled` and `steers_are_spelled` tie both to the small speller of `specs/laws/Speller.antt`.
//!
//! Stands on `script_words`.
mod event;
mod event_reader;
mod laws;
mod limits;
mod steer;
mod steer_reader;
mod words;

pub use event::{CoreEvent, EventLine, EventWord, Events};
pub use event_reader::read_event;
pub use laws::{events_are_spelled, steers_are_spelled};
pub use limits::{MOST_DEFAULTS, MOST_STEERS};
pub use steer::{Steer, SteerLine, SteerList};
pub use steer_reader::read_steers;
pub use words::{EventFirst, PickWord, PlainWord, TurnWord, read_event_word};
