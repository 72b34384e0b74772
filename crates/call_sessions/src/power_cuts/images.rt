//! Sessions on images that were made, after a power cut: recovery and mounting as code find volume, journal and log as the
//! laws of power cuts say, find no fault, and show the tree after a prefix of the transactions.
//!
//! `specs/SessionImages` says what a session is opened with and which media a power cut leaves; `specs/Requests` what each
//! request carries. The public functions of `laws` do nothing when they are called: they are laws, and their clauses say them.
//! `mount_after_a_cut` is `mount`, with what follows for it.
mod laws;
mod mounting;

pub use laws::{
    logs_of_sessions_are_read, requests_of_sessions_are_readable, sessions_leave_no_fault,
    sessions_mount_to_a_prefix, sessions_recover_their_files,
    volume_and_journal_of_sessions_are_found,
};
pub use minix_host::new_volumes_are_in_use;
pub use mounting::mount_after_a_cut;
