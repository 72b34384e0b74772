//! What may be wrong with a volume.

/// What is wrong with the bytes of a volume.
#[derive(Clone, Copy, Debug, PartialEq, Eq)]
pub enum LayoutFault {
    /// The superblock is of no Minix V1 file system.
    BadMagic,
    /// The numbers of the superblock do not agree.
    BadGeometry,
    /// A zone lies outside the volume's zones of data, or was met before.
    BadZone,
    /// Inode 1 is no directory, a file or directory is larger than a file may be, or the size of a directory
    /// is no multiple of a slot's bytes.
    BadInode,
    /// A slot in use has a name that is empty or has a `/`, the number of an inode past the last, a name that
    /// stood before in its directory, or a directory that was named before. `read_slot` tells the first two.
    BadSlot,
}
