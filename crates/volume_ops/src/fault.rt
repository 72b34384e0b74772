//! Why a volume was not read.
use crate::walk_fault::WalkFault;
use blk_base::NoMemory;
use minix_layout::LayoutFault;
use std::alloc::AllocError;

/// Why a volume was not read.
#[derive(Clone, Copy, Debug, PartialEq, Eq)]
pub enum VolumeFault {
    /// The device could not read a block.
    ReadFault,
    /// The first fault of the walk, and the block at which it is told.
    Layout(LayoutFault, u32),
    NoMemory,
}

impl From<NoMemory> for VolumeFault {
    ghost use Rattle.std.specs.Prelude.{◌≡◌};
    ghost use Rattle.volume_ops.specs.declared.fault.VolumeFault.TheVariants as faults;

    ghost from_gives = { λ _ e. e ≡ faults.NoMemory };

    fn from(_: NoMemory) -> Self {
        VolumeFault::NoMemory
    }
}

impl From<AllocError> for VolumeFault {
    ghost use Rattle.std.specs.Prelude.{◌≡◌};
    ghost use Rattle.volume_ops.specs.declared.fault.VolumeFault.TheVariants as faults;

    ghost from_gives = { λ _ e. e ≡ faults.NoMemory };

    fn from(_: AllocError) -> Self {
        VolumeFault::NoMemory
    }
}

impl From<WalkFault> for VolumeFault {
    ghost use Rattle.std.specs.Prelude.{◌≡◌};
    ghost use Rattle.volume_ops.specs.Faults.{of_walk};

    ghost from_gives = { λ f e. e ≡ of_walk f };

    fn from(fault: WalkFault) -> Self {
        match fault {
            WalkFault::Layout(fault, block) => VolumeFault::Layout(fault, block),
            WalkFault::NoMemory => VolumeFault::NoMemory,
        }
    }
}
