//! Why an image was not widened.
ghost use Rattle.std.specs.Prelude.{◌≡◌};
ghost use Rattle.widening.specs.code.Faults.{of_mount};

use blk_base::NoMemory;
use mount_make::{ImageFault, MountFault};

/// Why an image was not widened.
#[derive(Clone, Copy, Debug, PartialEq, Eq)]
pub enum WidenFault {
    /// The device could not read a block.
    ReadFault,
    /// The device failed this command of the recovery.
    DeviceFailed(u64),
    /// The first fault of the image, and the block at which it is told.
    Image(ImageFault, u32),
    /// A directory has more names than fit, or there are too few free zones.
    NoRoom,
    NoMemory,
}

impl From<NoMemory> for WidenFault {
    ghost use Rattle.std.specs.Prelude.{◌≡◌};
    ghost use Rattle.widening.specs.declared.fault.WidenFault.TheVariants as faults;

    ghost from_gives = { λ _ e. e ≡ faults.NoMemory };

    fn from(_: NoMemory) -> Self {
        WidenFault::NoMemory
    }
}

// A fault of mounting, as one of widening.
pub(crate) fn of_mount(fault: MountFault) -> WidenFault
    ensures { result ≡ of_mount fault }
{
    match fault {
        MountFault::ReadFault => WidenFault::ReadFault,
        MountFault::DeviceFailed(id) => WidenFault::DeviceFailed(id),
        MountFault::Image(fault, block) => WidenFault::Image(fault, block),
        MountFault::NoMemory => WidenFault::NoMemory,
    }
}
