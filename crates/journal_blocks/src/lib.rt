//! The blocks of a journal: its superblock, and the descriptors, revoke blocks and commit blocks of its log.
//!
//! The format is JBD2's, as Linux's `include/linux/jbd2.h` has it, in blocks of 1,024 bytes and without checksums. All
//! numbers have their highest byte first. Each of these blocks begins with a header of 12 bytes: the magic number
//! 0xC03B3998, the type of the block and its sequence, the number of its transaction. A body stands in the log as it
//! is, but for its first four bytes where they are the magic number.
//!
//! A journal is of one of two kinds, which its superblock tells: with narrow tags descriptors and revoke blocks have
//! block numbers of 32 bits, with wide tags of 64.
//!
//! `specs/` has each block as it is written and as it is read, and the log of an image; `laws` says that what is
//! written is read back, and what the log has.
//!
//! Stands on `blk_base`, whose `Block` has the bytes, `byte_fields`, which reads and writes them, and `log_model`,
//! whose transactions a log is read as.
#![tactic(auto)]

mod cursor;
mod escapes;
mod fault;
mod header;
mod laws;
mod lists;
mod log_block;
mod numbers;
mod super_block;
mod tag;
mod writing;

pub use escapes::{escape, restore};
pub use fault::JournalFault;
pub use header::sequence_in;
pub use laws::{
    bodies_are_restored, faults_count_in_whole_transactions, log_blocks_are_read,
    logs_hold_whole_transactions, readers_agree, superblocks_are_read,
};
pub use lists::{NumberList, TagList};
pub use log_block::{LogBlock, read_block};
pub use super_block::{JournalSuper, is_journal, read_super, set_tail, write_super};
pub use tag::Tag;
pub use writing::{most_revokes, most_tags, write_commit, write_descriptor, write_revoke};
