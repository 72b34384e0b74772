//! Laws of whole sessions and of what is left: that the images which sessions, replays and widening leave are clean, as the
//! checker understands it, that the tree which recovery finds has what calls cover, that transactions find room in the log,
//! that these and barrier calls wait for the device only where an earlier transaction holds a block, and that no session gets
//! stuck.
//!
//! `sessions` has the images of sessions, whole or cut, `widened` those of `widen`, `replays` those that `replay --raw`
//! writes, and `tidy` that volumes that were made have no leftovers. `covered` has the tree that was recovered,
//! `transaction_size` what calls add to a transaction, `progress` what steps of the host get done, and `answered` that rounds
//! enough leave no thread a call.
//!
//! Stands on `vol_check::kept_clean`, `vol_check` and `session_core`.
#![tactic(auto)]

pub mod answered;
pub mod covered;
pub mod progress;
pub mod replays;
pub mod sessions;
pub mod tidy;
pub mod transaction_size;
pub mod widened;
