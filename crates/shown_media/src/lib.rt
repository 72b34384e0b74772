//! Devices that show, while they go on, what a power cut would leave.
#![tactic(auto)]

ghost use Rattle.std.specs.Prelude.{◌≡◌, IfOk};

use blk_base::{Image, NoMemory};
use device_epochs::EpochDevice;
use flog_device::FlogDevice;
use order_model::{CutDisk, OrderedDev};
use std::alloc::Global;

/// A device of which can be told, while it goes on, what a power cut would leave on its medium.
pub trait ShowsMedium: OrderedDev {
    /// What a power cut would leave on the medium now, as a copy.
    fn medium(&self, alloc: Global) -> Result<Image, NoMemory>
        ensures { IfOk result (λ i. i ≡ (Self.seen (Self.state self.now)).surface) };
}

impl ShowsMedium for EpochDevice {
    fn medium(&self, alloc: Global) -> Result<Image, NoMemory> {
        EpochDevice::medium(self, alloc)
    }
}

impl ShowsMedium for FlogDevice {
    fn medium(&self, alloc: Global) -> Result<Image, NoMemory> {
        FlogDevice::medium(self, alloc)
    }
}

/// A law by running: the copy is what a power cut leaves at once behind it.
pub fn shown_and_left<D: ShowsMedium + Drop>(
    alloc: Global,
    dev: D,
) -> Result<(Image, CutDisk), NoMemory>
    ensures { IfOk result (λ r. r.0 ≡ r.1.image) }
{
    let shown = dev.medium(alloc)?;
    Ok((shown, dev.cut()))
}
