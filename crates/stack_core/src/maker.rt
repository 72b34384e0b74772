//! What makes the devices that a recovery runs on, and the makers of model devices and of flash logs.
ghost use Rattle.std.specs.Prelude.{◌≡◌, ℕ, ◌≤◌, List, [], ◌∷◌, IfOk};
ghost use Rattle.stack_core.specs.Fresh.{IsFresh, fresh_device, fresh_flash};

use blk_base::{Image, NoMemory};
use device_epochs::{DeviceSetup, EpochDevice};
use flog_device::{FlogDevice, FlogSetup};
use order_model::OrderedDev;
use std::alloc::Global;
use std::marker::Model;

/// Makes devices, each over an image of its own: one for each attempt of recovery, and one for the mount.
///
/// Its devices differ in their images alone. How they are made stands in numbers that no call changes.
pub trait Maker {
    /// The devices that it makes.
    type Dev: OrderedDev + Drop;

    /// The numbers that say how its devices are made.
    ghost setup: { Self → List ℕ };

    /// A fresh device of this setup over an image.
    ghost fresh_dev: { List ℕ → List (List ℕ) → Self.Dev };

    /// A fresh device over this image, which stays on and on which nothing fails.
    fn fresh(&mut self, alloc: Global, image: Image) -> Result<Self::Dev, NoMemory>
        ensures setup { setup self.new ≡ setup self.old }
        ensures state { IfOk result (λ d. Self.Dev.OrderedDev.state d ≡ Self.Dev.OrderedDev.state (fresh_dev (setup self.old) image)) }
        ensures is_fresh { IfOk result (λ d. IsFresh image (Self.Dev.OrderedDev.seen (Self.Dev.OrderedDev.state d))) }
        ensures on { IfOk result (λ d. Self.Dev.OrderedDev.stays_on (Self.Dev.OrderedDev.state d)) }
        ensures sound { IfOk result (λ d. Self.Dev.OrderedDev.sound (Self.Dev.OrderedDev.state d)) };
}

/// Makes model devices of one depth.
#[derive(Drop)]
pub struct EpochMaker {
    depth: u32,
}

impl Model for EpochMaker {
    ghost use Rattle.std.specs.Prelude.{ℕ, ◌≤◌};

    ghost Value = { ℕ };

    ghost view = { λ m. m.depth };

    ghost invariant = { λ m. (1 ≤ m.depth) × (m.depth ≤ 64) };
}

impl EpochMaker {
    /// A maker of devices on which so many commands may wait.
    pub fn make(depth: u32) -> EpochMaker
        requires { (1 ≤ depth) × (depth ≤ 64) }
        ensures { result ≡ depth }
    {
        EpochMaker { depth }
    }
}

impl Maker for EpochMaker {
    type Dev = EpochDevice;

    ghost setup = { λ depth. depth ∷ [] };

    ghost fresh_dev = { fresh_device };

    fn fresh(&mut self, alloc: Global, image: Image) -> Result<EpochDevice, NoMemory> {
        let setup = DeviceSetup {
            depth: self.depth,
            limit: u64::from(image.len()) + 2,
            fail_at: None,
            bad_read: None,
            cut_at: None,
        };
        EpochDevice::make(alloc, image, setup)
    }
}

/// Makes flash logs of one depth, each of so many segments.
#[derive(Drop)]
pub struct FlogMaker {
    depth: u32,
    segments: u32,
}

impl Model for FlogMaker {
    ghost use Rattle.std.specs.Prelude.{◌≤◌};
    ghost use Rattle.stack_core.specs.Fresh.{FlogNumbers};

    ghost Value = { FlogNumbers };

    ghost view = { λ m. record { depth = m.depth; segments = m.segments } };

    ghost invariant = { λ m. (1 ≤ m.depth) × (m.depth ≤ 64) × (3 ≤ m.segments) × (m.segments ≤ 64) };
}

impl FlogMaker {
    /// A maker of flash logs on which so many commands may wait, each of so many segments.
    pub fn make(depth: u32, segments: u32) -> FlogMaker
        requires depth { (1 ≤ depth) × (depth ≤ 64) }
        requires segments { (3 ≤ segments) × (segments ≤ 64) }
        ensures { result ≡ record { depth = depth; segments = segments } }
    {
        FlogMaker { depth, segments }
    }
}

impl Maker for FlogMaker {
    type Dev = FlogDevice;

    ghost setup = { λ m. m.depth ∷ m.segments ∷ [] };

    ghost fresh_dev = { fresh_flash };

    fn fresh(&mut self, alloc: Global, image: Image) -> Result<FlogDevice, NoMemory> {
        let setup = FlogSetup {
            depth: self.depth,
            limit: u64::from(image.len()) + 2,
            segments: self.segments,
            fail_at: None,
            cut_at: None,
        };
        FlogDevice::make(alloc, image, setup)
    }
}
