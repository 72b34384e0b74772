//! What a call that was done on a volume makes of the journal, the cached pages and the owners of zones.
//!
//! `notes` notes what was touched in the running transaction, `pages` lets pages go and keeps those that were written, and
//! `done` does both. None of it takes memory: room is made before the call is done.
//!
//! Stands on `commit_actor` and `page_cache`, whose parts change, and on `volume_in_use::now`, which tells what a call touched.
mod done;
mod laws;
mod notes;
mod pages;

pub use done::change;
pub use laws::calls_change_their_parts;
