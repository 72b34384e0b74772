//! Tests of the flash log device: gaps, folds, full logs, power cuts and transfers that fail.
//!
//! Stands on `flog_device`.
#[cfg(test)]
mod flash_log;
