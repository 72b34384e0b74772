//! The limits of a volume script, and what a header line that is missing stands for. Those that other crates have
//! too are theirs.

/// A number of journal blocks is spelled as a number below this.
pub const JOURNALS: u64 = 4_294_967_296;

/// The most threads.
pub const MOST_THREADS: usize = 16;

/// The most calls of one thread.
pub const MOST_CALLS: usize = 10_000;

/// The most requests of a session.
pub const MOST_SESSION: u64 = 200_000;

/// The greatest seed.
pub const MOST_SEED: u64 = 1_000_000_000;

/// The most `recover` lines.
pub const MOST_RECOVERS: usize = 100;

/// The most requests of a session where no line says it.
pub const DEFAULT_LIMIT: u64 = 20_000;

/// The seed where no line says one.
pub const DEFAULT_SEED: u64 = 1;
