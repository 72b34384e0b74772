//! What can be wrong with an image that is mounted.
ghost use Rattle.std.specs.Prelude.{◌≡◌};
ghost use Rattle.mount_make.specs.Images.{image_fault, journal_kind, recovery_fault, volume_fault};

use journal_blocks::JournalFault;
use journal_replay::RecoverFault;
use minix_layout::LayoutFault;
use thiserror::Error;
use volume_ops::VolumeFault;

/// What is wrong with an image. Its text is how the program names it.
#[derive(Clone, Copy, Debug, PartialEq, Eq, Error)]
pub enum ImageFault {
    /// The superblock is of no Minix V1 file system.
    #[error("bad magic")]
    BadMagic,
    /// The numbers of the superblock do not agree, or blocks of the volume are missing.
    #[error("bad geometry")]
    BadGeometry,
    /// The superblock of the journal is of another version.
    #[error("bad kind")]
    BadKind,
    /// The numbers of the journal's superblock do not agree, blocks of the journal are missing, or a whole
    /// transaction has a revoke block with a bad count or a body for no block that a session changes.
    #[error("bad count")]
    BadCount,
    /// The journal needs features that are not known; these are their bits.
    #[error("feature {0}")]
    Feature(u32),
    /// A zone lies outside the zones of data, or was met before.
    #[error("bad zone")]
    BadZone,
    /// The root is no directory, or a size can not be.
    #[error("bad inode")]
    BadInode,
    /// A name can not be, stands twice, or leads to no inode or to a directory that has another name.
    #[error("bad slot")]
    BadSlot,
}

/// Why an image was not mounted.
#[derive(Clone, Copy, Debug, PartialEq, Eq)]
pub enum MountFault {
    /// The device could not read a block.
    ReadFault,
    /// The device failed this command of the recovery.
    DeviceFailed(u64),
    /// The first fault of the image, and the block at which it is told.
    Image(ImageFault, u32),
    NoMemory,
}

// A fault of the layout, as one of the image.
pub(crate) fn image_fault(fault: LayoutFault) -> ImageFault
    ensures { result ≡ image_fault fault }
{
    match fault {
        LayoutFault::BadMagic => ImageFault::BadMagic,
        LayoutFault::BadGeometry => ImageFault::BadGeometry,
        LayoutFault::BadZone => ImageFault::BadZone,
        LayoutFault::BadInode => ImageFault::BadInode,
        LayoutFault::BadSlot => ImageFault::BadSlot,
    }
}

// A fault of a journal, as one of the image.
pub(crate) fn journal_kind(fault: JournalFault) -> ImageFault
    ensures { result ≡ journal_kind fault }
{
    match fault {
        JournalFault::BadCount => ImageFault::BadCount,
        JournalFault::Feature(bits) => ImageFault::Feature(bits),
        JournalFault::BadKind | JournalFault::NotMagic | JournalFault::NoMemory => {
            ImageFault::BadKind
        }
    }
}

// A fault of a recovery, as one of mounting.
pub(crate) fn recovery_fault(fault: RecoverFault) -> MountFault
    ensures { result ≡ recovery_fault fault }
{
    match fault {
        RecoverFault::ReadFault => MountFault::ReadFault,
        RecoverFault::DeviceFailed(id) => MountFault::DeviceFailed(id),
        RecoverFault::BadJournal(fault, block) => MountFault::Image(journal_kind(fault), block),
        RecoverFault::NoMemory => MountFault::NoMemory,
    }
}

// A fault of a volume, as one of mounting.
pub(crate) fn volume_fault(fault: VolumeFault) -> MountFault
    ensures { result ≡ volume_fault fault }
{
    match fault {
        VolumeFault::ReadFault => MountFault::ReadFault,
        VolumeFault::Layout(fault, block) => MountFault::Image(image_fault(fault), block),
        VolumeFault::NoMemory => MountFault::NoMemory,
    }
}
