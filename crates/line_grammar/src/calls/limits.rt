//! The limits of a call's numbers.

/// Offsets and sizes are below this.
pub const OFFSETS: u64 = 4_294_967_296;

/// The most bytes that one call writes or reads.
pub const MOST_LENGTH: u64 = 65_536;

/// The most hexadecimal digits of one call.
pub const MOST_DIGITS: usize = 2_048;
