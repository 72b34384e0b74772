//! Slots of directories as values.
use crate::Name;

/// A slot in use: the number of an inode, and the name under which it stands in its directory.
#[derive(Drop, Debug, PartialEq, Eq)]
pub struct Slot {
    pub inode: u16,
    pub name: Name,
}
