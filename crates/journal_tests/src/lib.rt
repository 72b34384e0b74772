//! Tests of a journal's blocks, of recovery on the model device, and of images that are mounted on one that fails. What is told of
//! an image is a row of `program_tests`.
//!
//! Stands on `journal_blocks`, `journal_replay`, `mount_make` and `device_epochs`.
#![tactic(auto)]

#[cfg(test)]
mod log_blocks;
#[cfg(test)]
mod logs;
#[cfg(test)]
mod made_images;
#[cfg(test)]
mod recovery;
