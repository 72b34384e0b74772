//! The limits of `recover` lines. Those of event lines are `script_words`'.

/// The most words of a `recover` line, behind the first.
pub const MOST_STEERS: usize = 1_000;

/// The most steps that one word of a `recover` line leaves to the recovery.
pub const MOST_DEFAULTS: u64 = 1_000_000;
