//! The limits of event lines, which scripts of all kinds have.

/// How often an event line may be done.
pub const MOST_REPEATS: u64 = 1_000_000;

/// The most events, with their repeats.
pub const MOST_EVENTS: u64 = 20_000_000;

/// The place that an event picks is below this.
pub const PLACES: u64 = 4_294_967_296;
