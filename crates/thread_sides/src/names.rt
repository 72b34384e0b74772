//! What the scheduler and the device of a session are opened with, as meanings of a type.
ghost use Rattle.std.specs.Prelude.{ℕ, List};
ghost use Rattle.thread_sides.specs.Opened.{PartSetup};

use device_epochs::EpochDevice;
use flog_device::FlogDevice;
use schedulers::dispatch::QueueNames;
use schedulers::elevator::Elevator;
use schedulers::epochs::Sched;
use std::marker::Brand;

/// Which queues connect the sides of a session, and what its scheduler and its device are opened with. It has no calls.
pub trait PartNames: QueueNames {
    /// The image that the device is made over.
    ghost image: { List (List ℕ) };

    /// The numbers with which scheduler and device are made.
    ghost setup: { PartSetup };
}

/// What passes `Brand` for N picks its meanings itself: these here are of no session.
impl PartNames for Brand {
    ghost use Rattle.std.specs.Prelude.{[]};
    ghost use Rattle.thread_sides.specs.Opened.{no_setup};

    ghost image = { [] };

    ghost setup = { no_setup };
}

/// A scheduler that a session can open, for so many requests.
pub trait OpensScheduler {
    ghost opened: { ℕ → Self };
}

impl OpensScheduler for Sched {
    ghost use Rattle.schedulers.specs.declared.reassign.scheduler.TheConstants.{CAPACITY};
    ghost use Rattle.schedulers.specs.reassign.Sched.{opened as opened_sched};

    ghost opened = { λ limit. opened_sched limit CAPACITY };
}

impl OpensScheduler for Elevator {
    ghost use Rattle.schedulers.specs.declared.reassign.scheduler.TheConstants.{CAPACITY};
    ghost use Rattle.schedulers.specs.elevator.Elevator.{opened as opened_elevator};

    ghost opened = { λ limit. opened_elevator limit CAPACITY };
}

/// A device that a session can open, over an image.
pub trait OpensDevice {
    ghost opened_over: { List (List ℕ) → PartSetup → Self };
}

impl OpensDevice for EpochDevice {
    ghost use Rattle.device_epochs.specs.Device.{opened as opened_device};
    ghost use Rattle.thread_sides.specs.Opened.{epoch_setup};

    ghost opened_over = { λ image setup. opened_device image (epoch_setup setup) };
}

impl OpensDevice for FlogDevice {
    ghost use Rattle.flog_device.specs.Device.{opened as opened_flash};
    ghost use Rattle.thread_sides.specs.Opened.{flog_setup};

    ghost opened_over = { λ image setup. opened_flash image (flog_setup setup) };
}
