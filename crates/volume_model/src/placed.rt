//! A node of a changeable volume, with its place in it.
use crate::FileZones;
use minix_layout::Inode;
use minix_tables::directories::Slots;
use tree_model::Names;

/// A directory as it stands in a volume.
#[derive(Drop)]
pub struct DirectoryPart {
    pub parent: u64,
    /// The bytes that a name may have.
    pub width: u16,
    /// Its names with the births of their nodes, but for `.` and `..`.
    pub names: Names,
    /// Its slots as they stand in its blocks.
    pub slots: Slots,
}

/// What a node is.
#[derive(Drop)]
pub enum Part {
    Directory(DirectoryPart),
    File(FileZones),
}

/// A node with its place in the volume: the number of its inode, and the inode as it stands there.
#[derive(Drop)]
pub struct Placed {
    pub number: u16,
    pub inode: Inode,
    pub part: Part,
}
