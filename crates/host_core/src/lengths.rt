//! How much a call on a volume tells: bounds for the lists of what it touched, so that room for them can be made before
//! the call is done.
//!
//! Stands on `volume_steps`, which has the calls.
mod laws;

pub use laws::calls_tell_few;
