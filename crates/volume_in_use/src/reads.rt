//! What a volume in use answers to calls that ask for data: the bytes of a file, the names in a directory, and what a
//! node is.
//!
//! `pieces` has the bytes of a file, block by block as the file's list of zones has them, and `replies` the answers;
//! `trees` has the tree that a volume stands for.
//! `specs/Replies.antt` says which parts of the tree's rows they are.
//!
//! Stands on `now`, whose parts it reads, on `volume_steps`, which says what a plain volume is, and on
//! `tree_model`, which says what a call replies.
mod pieces;
mod replies;
mod trees;

pub use replies::{list, read, stat};
pub use trees::tree;
