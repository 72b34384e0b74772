//! Blocks that a transaction holds until it is on the medium, and those of them that the next one wants to change.
//!
//! A transaction holds the blocks of its bodies from when its log blocks are built until its commit block is done. A
//! block that the running transaction touched and another one holds is a conflict: until it is let go, the running
//! transaction is not closed.
//!
//! `conflicts` has the table, `held` what it keeps of a block, `commits` where commit blocks stand, and `laws` what holds
//! over any list of its calls.
//!
//! Stands on `number_sets`, whose lists in rising order it keeps.
mod commits;
mod conflicts;
mod held;
mod laws;

pub use commits::{CommitBlock, Commits};
pub use conflicts::Conflicts;
pub use held::Held;
pub use laws::{blocks_have_one_holder, first_commit_blocks_count, wanted_blocks_are_held};
