//! What all tests here compare by.
use std::fmt::{Debug, Display};
use std::process::Abort;

/// Ends the process where the two of a row differ, and tells the row and both.
pub fn expect<W: Display, T: PartialEq + Debug>(rt: &impl Abort, row: &W, came: &T, wanted: &T) {
    assert_eq!(rt; came, wanted, "at {row}");
}
