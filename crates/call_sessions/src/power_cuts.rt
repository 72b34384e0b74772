//! What a power cut leaves of a session, and what recovery makes of it.
//!
//! `images` has the images that a cut may leave of a host's run, `recovery` recovery and the mount, also where they are cut
//! in turn, and `calls` what that means for calls.
//!
//! Stands on `host_machine` and `made` for the runs, and on `mount_make` for the mount.
pub mod calls;
pub mod images;
pub mod recovery;
