//! The limits of a script, and what a header line that is missing stands for. Those of its event lines are
//! `script_words`'.

/// The most bytes of a script.
pub const MOST_SCRIPT_BYTES: usize = 4_194_304;

/// The most blocks of its medium.
pub const MOST_BLOCKS: u64 = 4_096;

/// The most commands that may wait in the device.
pub const MOST_DEPTH: u64 = 64;

/// The most items of each queue between two parts of the stack.
pub const MOST_QUEUE: u64 = 64;

/// The latest step of the device at which a script can cut the power.
pub const MOST_STEPS: u64 = 1_000_000_000;

/// The latest transfer that a script can let fail.
pub const MOST_TRANSFERS: u64 = 1_000_000_000;

/// The fewest segments of a flash log.
pub const FEWEST_SEGMENTS: u64 = 3;

/// The most segments of a flash log.
pub const MOST_SEGMENTS: u64 = 64;

/// The most requests.
pub const MOST_REQUESTS: usize = 10_000;

/// The depth where no line says one.
pub const DEFAULT_DEPTH: u32 = 32;

/// The length of each queue where no line says one.
pub const DEFAULT_QUEUE: u32 = 32;
