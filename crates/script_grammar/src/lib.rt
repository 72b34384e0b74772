//! The grammar of scripts: texts as plain values, and the first faulty line of those that are no scripts.
//!
//! Stands on `order_model` and `script_words`. The call that matters is `read_script`. What it reads is
//! `script_of` in `specs/Grammar.antt`; above that definition stand three laws, `tells_first_fault`,
//! `reads_what_is_spelled` and `accepts_what_is_spelled`, in words of lines and of a small speller.
#![tactic(auto)]

mod grammar;
mod kinds;
mod law;
mod limits;
mod line_forms;
mod reading;
mod script;
mod script_error;
mod word_table;
mod words;

pub use grammar::read_script;
pub use kinds::ScriptKind;
pub use law::{accepts_what_is_spelled, reads_what_is_spelled, tells_first_fault};
pub use limits::{
    DEFAULT_DEPTH, DEFAULT_QUEUE, FEWEST_SEGMENTS, MOST_BLOCKS, MOST_DEPTH, MOST_QUEUE,
    MOST_REQUESTS, MOST_SCRIPT_BYTES, MOST_SEGMENTS, MOST_STEPS, MOST_TRANSFERS,
};
pub use script::{CoreEvent, EventLine, EventWord, Events, Form, Header, RequestList, Script};
pub use script_error::{LineError, ScriptError, fault_at};
pub use word_table::read_first_word;
pub use words::FirstWord;
