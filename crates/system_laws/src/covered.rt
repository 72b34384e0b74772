//! The sentences of the headline once more, in words of writes, calls, paths and trees. Each law uses one of them and ends in
//! what a user sees on the medium or in the tree that was recovered. So none of the definitions between can be empty: what
//! keeps the order, what a call covers, what has survived, when two trees are alike, and how new a block has to be.
//!
//! The public functions do nothing when they are called: each is a law, and its clauses say it.
//!
//! Stands on `session_core` for scripts, their reports and the headline.
mod laws;

pub use laws::{
    blocks_are_as_new_as_their_file, calls_keep_what_they_cover,
    each_barrier_or_sync_call_is_meant, recovered_trees_have_their_metadata,
    replies_are_of_the_tree_there, writes_survive_in_order,
};
