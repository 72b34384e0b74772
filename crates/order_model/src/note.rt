//! Notes on requests.
/// What a submitted request carries.
#[derive(Clone, Copy, PartialEq, Eq, Debug)]
pub enum Note {
    /// A page of a file, by the file's birth, the page's index and the number of the call that wrote it.
    Page { birth: u64, index: u32, call: u64 },
    /// The journal superblock.
    Super,
    Revoke { tx: u32 },
    Descriptor { tx: u32 },
    /// The logged body of a metadata block.
    Body { tx: u32, block: u32 },
    Commit { tx: u32 },
    /// A body that goes to its own place in a checkpoint.
    Home { block: u32 },
    Flush,
    /// A request of a script that has no file system.
    Raw,
}
