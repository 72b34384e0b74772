//! A clean volume whose names are widened: it stays clean.
//!
//! Stands on `widening` for what is written, and on `vol_check` for what a clean volume is.
mod laws;

pub use laws::widened_volumes_are_clean;
