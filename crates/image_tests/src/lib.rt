//! Tests of what a Minix V1 volume has, part by part, and of trees. In `calling` and
//! `recoveries` stand laws of calls, logs and recoveries in the words of the format.
//!
//! Stands on `minix_layout`, `minix_tables::zones`, `minix_tables::inodes`, `minix_tables::directories`, `tree_model`, `volume_ops` and
//! `volume_model`, and for laws on `volume_model::editing`, `volume_steps`, `journal_blocks` and `journal_replay`.
#![tactic(auto)]

pub mod calling;
#[cfg(test)]
mod directory_slots;
#[cfg(test)]
mod file_maps;
#[cfg(test)]
mod free_zones;
#[cfg(test)]
mod layout;
pub mod recoveries;
#[cfg(test)]
mod same;
#[cfg(test)]
mod trees;
#[cfg(test)]
mod walks;
