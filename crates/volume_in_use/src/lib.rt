//! A volume in use: its blocks, its zones and its tree, and what is read of them.
//!
//! `now` has the volume, `reads` what calls read, and `bytes` what they write and cut.
//!
//! Stands on `volume_steps`, which says what each call does to it.
#![tactic(auto)]

pub mod bytes;
pub mod now;
pub mod reads;
