//! Recovery of what a power cut left of a session: attempts that are cut, each over what the one before left, and then a
//! recovery to its end and the mount.
//!
//! `specs/Attempts` says what an attempt leaves, as a relation on any device and as a function on model devices, and
//! `specs/Found` how many transactions of the session the recovered volume has; `laws` that these are the ones that the
//! session kept, and that relation and function are one on model devices.
//!
//! Stands on `journal_replay` for an attempt, on `stack_core` for what makes its devices, on `line_grammar::events` for the words,
//! on `mount_make` for the mount, and for its law on `images`, whose laws and names it passes on.
mod attempts;
mod laws;
mod remounting;
mod steering;

pub use crate::power_cuts::images::{
    sessions_leave_no_fault, sessions_mount_to_a_prefix, sessions_recover_their_files,
    volume_and_journal_of_sessions_are_found,
};
pub use attempts::{Attempt, recover_lines};
pub use laws::{attempts_on_model_devices, found_is_what_was_kept};
pub use remounting::{Remounted, remount};
