//! The grammar of a store's scripts, and the volume script that is made of each.
//!
//! `read_store` reads a text, or tells its first faulty line. What it reads is `store_of` in `specs/Grammar.antt`, and
//! what holds of every script that is read stands in `specs/WellFormed.antt`. `volume_script` makes the script of the
//! session in which the store's calls are done, `specs/Made.antt`.
//!
//! Stands on `wal_store` for puts and their calls, on `script_grammar` and `line_grammar::events` for the lines that all scripts
//! have, and on `session_grammar` for volume scripts.
#![tactic(auto)]

mod body;
mod grammar;
mod header;
mod laws;
mod limits;
mod made;
mod reading;
mod script;
mod word_table;
mod words;

pub use grammar::read_store;
pub use laws::{
    made_scripts_are_well_formed, stores_are_read_back, stores_are_what_is_spelled,
    stores_tell_first_fault,
};
pub use limits::{MOST_STORE, SPARE_ZONES, STORE_INODES, STORE_JOURNAL};
pub use made::volume_script;
pub use script::{StoreHeader, StoreScript};
