//! How a walk ends early.
use blk_base::NoMemory;
use minix_layout::LayoutFault;

/// How a walk ends early.
#[derive(Clone, Copy, Debug, PartialEq, Eq)]
pub enum WalkFault {
    /// A fault, and the block at which it is told.
    Layout(LayoutFault, u32),
    NoMemory,
}

impl From<NoMemory> for WalkFault {
    ghost use Rattle.std.specs.Prelude.{◌≡◌};
    ghost use Rattle.volume_ops.specs.declared.walk_fault.WalkFault.TheVariants as walk_faults;

    ghost from_gives = { λ _ e. e ≡ walk_faults.NoMemory };

    fn from(_: NoMemory) -> Self {
        WalkFault::NoMemory
    }
}
