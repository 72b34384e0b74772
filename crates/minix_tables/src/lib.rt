//! The tables of a volume: which inodes and zones are in use, the inode table, and directories.
//!
//! `zones` has the zones in use, `inodes` one inode and its zones, and `directories` the slots of a directory.
//!
//! Stands on `minix_layout`.
#![tactic(auto)]

pub mod directories;
pub mod inodes;
pub mod zones;
