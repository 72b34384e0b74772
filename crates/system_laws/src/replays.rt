//! A law of two commands: the image that a volume script leaves is clean.
//!
//! Stands on `barrierfs_top` for what the commands do, and on `sessions` for what sessions leave.
mod laws;

pub use laws::raw_images_are_clean;
