//! Calls on a tree, and what they answer.
use crate::{ByteList, NameList};

/// A call. A list that is not named is the text of a path; where there are two, the node's own path comes first.
/// Offsets, lengths and sizes count bytes.
#[derive(Drop, Debug)]
pub enum Call {
    /// Makes a directory.
    Mkdir(ByteList),
    /// Removes an empty directory.
    Rmdir(ByteList),
    /// Makes an empty file.
    Create(ByteList),
    /// Takes a name from a file, and removes the file with its last name.
    Unlink(ByteList),
    /// Gives a file another name.
    Link(ByteList, ByteList),
    /// Gives a node another name in place of the one that it has here.
    Rename(ByteList, ByteList),
    /// Cuts a file to a size, or makes it longer by a hole.
    Truncate(ByteList, u32),
    /// Writes a byte over and over.
    Write {
        path: ByteList,
        off: u32,
        len: u32,
        value: u8,
    },
    /// Writes these bytes.
    Bytes {
        path: ByteList,
        off: u32,
        bytes: ByteList,
    },
    /// Reads bytes, up to the file's size.
    Read {
        path: ByteList,
        off: u32,
        len: u32,
    },
    /// Asks for the names in a directory.
    List(ByteList),
    /// Asks for a node's kind, size and links.
    Stat(ByteList),
    /// Asks that what was done to a node and all of the metadata is durable.
    Fsync(ByteList),
    /// Asks that the bytes of a file are durable.
    Fdatasync(ByteList),
    /// Asks that what was done to a node and all of the metadata comes before what follows.
    Fbarrier(ByteList),
    /// Asks that the bytes of a file come before what follows.
    Fdatabarrier(ByteList),
    /// Asks that all is durable.
    Sync,
}

/// The answer to a call.
#[derive(Drop, Debug)]
pub enum Reply {
    /// It is done.
    Ok,
    /// The bytes that were read.
    Bytes(ByteList),
    /// The names in a directory, in the order of their bytes.
    Names(NameList),
    /// The kind of a node, its size in bytes and its links.
    Stat { dir: bool, size: u32, links: u32 },
    /// A name of the path is not there.
    NotFound,
    /// The name is there.
    Exists,
    /// A node on the way of the path, or the one that it leads to, is no directory.
    NotDir,
    /// The path leads to a directory.
    IsDir,
    /// The directory has names.
    NotEmpty,
    /// A name of the path has more bytes than a directory can keep.
    NameTooLong,
    /// The node has as many links as it can have.
    TooManyLinks,
    /// The file or the directory would be larger than it can be.
    TooBig,
    /// There are not as many free zones as the call needs.
    NoSpace,
    /// There is no free inode.
    NoInode,
    /// The text is no path.
    BadPath,
    /// The root cannot be removed or renamed, and no directory goes below itself.
    Invalid,
    /// A write of the device failed, which had this number.
    ReadOnly(u64),
    /// The device is off.
    Down,
    /// The session has no more requests.
    SessionFull,
}

/// How much a volume can hold.
#[derive(Clone, Copy, PartialEq, Eq, Debug)]
pub struct Room {
    /// The nodes that it can have.
    pub inodes: u16,
    /// The zones of data that it has, whether they are in use or free.
    pub capacity: u16,
}
