//! What can be wrong with a block of a journal.

/// What is wrong with a block of a journal.
#[derive(Clone, Copy, Debug, PartialEq, Eq)]
pub enum JournalFault {
    /// It does not begin with the magic number.
    NotMagic,
    /// Its type is none of those that may stand here.
    BadKind,
    /// Its sizes and places do not agree.
    BadCount,
    /// It needs features that are not known; these are their bits.
    Feature(u32),
    NoMemory,
}
