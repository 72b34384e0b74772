//! The limits of a store's script, and what its volume has. Those that other crates have too are theirs.

/// The most blocks of a log.
pub const MOST_STORE: u64 = 1_000;

/// The inodes of the volume.
pub const STORE_INODES: u16 = 32;

/// The zones that it has besides those of the log.
pub const SPARE_ZONES: u32 = 16;

/// The blocks of its journal.
pub const STORE_JOURNAL: u32 = 128;
