//! What the words of the command line ask for, read with `clap`.
#![tactic(auto)]

mod asked;
mod command;
mod laws;
mod numerals;
mod texts;

pub use asked::{Asked, read_words};
pub use laws::clap_takes_the_table;
pub use texts::refusal;
