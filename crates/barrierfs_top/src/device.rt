//! The device over an image.
ghost use Rattle.std.specs.Prelude.{◌≡◌, length, IfOk};
ghost use Rattle.device_epochs.specs.Device.{opened};
ghost use Rattle.barrierfs_top.specs.Show.{recovery_setup};

use blk_base::{Image, NoMemory};
use device_epochs::{DeviceSetup, EpochDevice};
use script_grammar::DEFAULT_DEPTH;
use std::alloc::Global;

/// A device over an image. It has the depth of a script's, and room for a recovery.
pub fn device_over(alloc: Global, image: Image) -> Result<EpochDevice, NoMemory>
    ensures { IfOk result (λ d. d ≡ opened image (recovery_setup (length image))) }
{
    let setup = DeviceSetup {
        depth: DEFAULT_DEPTH,
        limit: u64::from(image.len()) + 2,
        fail_at: None,
        bad_read: None,
        cut_at: None,
    };
    EpochDevice::make(alloc, image, setup)
}
