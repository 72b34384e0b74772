//! A plain volume that is in use: what calls on it answer and take.
//!
//! `plain` has the volume, and `walk` where paths lead in it, with no list of their names. `rows` and `takes` say what
//! refuses each call and which zones it takes, `directories` what a name takes of a directory's slots, and `answer` has
//! the answers: none of this takes memory. `asking` does the calls that change nothing, and `applying` those that are
//! done in place. `looks` has what else is asked before a call, and `laws` that volumes are plain in use.
//!
//! Stands on `volume_names`, `volume_names::removals`, `volume_names::renames`, `volume_in_use::bytes` and `volume_in_use::reads`, which do calls where
//! a path has led, on `volume_in_use::now`, whose parts a volume keeps, on `volume_steps`, whose plain data it is, on
//! `tree_model`, which says what refuses a call, and on `minix_tables::zones`.
#![tactic(auto)]

mod answer;
mod applying;
mod asking;
mod directories;
mod laws;
mod looks;
pub mod opened;
mod plain;
mod renames;
mod rows;
mod takes;
mod walk;

pub use answer::Answer;
pub use laws::volumes_are_plain;
pub use plain::PlainVolume;
