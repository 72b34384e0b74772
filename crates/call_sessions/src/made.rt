//! Sessions on images that were made: what `minix_host` promises, with nothing left to be asked of volume or journal.
//!
//! `specs/MadeSessions` has the volume of such an image in use, and the session that is opened on it. The public function
//! does nothing when it is called: it is a law, and its clauses say it.
mod laws;

pub use laws::sessions_on_made_images_keep_rules_and_trees;
