//! Tests of what all else stands on: blocks, images and streams, fields and texts of bytes, sets of numbers, and what passes
//! between host, scheduler and device; of the two devices, and of runs of scripts on them. In `ordered_devices` and
//! `block_layers` stand laws in the words of a user, where code and definition could be wrong together.
//!
//! Stands on `blk_base`, `byte_fields`, `byte_text`, `number_sets`, `order_model`, `device_epochs`, `flog_device` and
//! `stack_core`.
#![tactic(auto)]

pub mod block_layers;
#[cfg(test)]
mod blocks;
#[cfg(test)]
mod byte_runs;
#[cfg(test)]
mod commands;
#[cfg(test)]
mod epoch_device;
#[cfg(test)]
mod fields;
#[cfg(test)]
mod flash_log;
pub mod ordered_devices;
#[cfg(test)]
mod sets;
#[cfg(test)]
mod stack;
#[cfg(test)]
mod steps;
