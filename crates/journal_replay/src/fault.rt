//! Why a journal is not recovered.

use journal_blocks::JournalFault;

/// Why a journal is not recovered.
#[derive(Clone, Copy, Debug, PartialEq, Eq)]
pub enum RecoverFault {
    /// The device could not read a block.
    ReadFault,
    /// The device failed the command of this id.
    DeviceFailed(u64),
    /// What is wrong with the journal, and the block of the device with which it is.
    BadJournal(JournalFault, u32),
    NoMemory,
}
