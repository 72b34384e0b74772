//! What the tests compare by.
use std::process::Abort;

// Ends the process where a step of a row came otherwise than it is wanted, and tells both.
pub fn expect(rt: &impl Abort, row: &str, step: usize, is_same: bool) {
    assert!(rt; is_same, "{row}: step {step}");
}
