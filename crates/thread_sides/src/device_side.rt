//! The device with its ends of the queues.
ghost use Rattle.std.specs.Prelude.{◌≡◌, [], false, replicate};
ghost use Rattle.order_model.specs.Device.{IsUntouched};
ghost use Rattle.order_model.specs.Machine.{machine_of};
ghost use Rattle.thread_sides.specs.DeviceReplay.{WasInSide};

use crate::events::DeviceEvent;
use crate::id_flags::IdFlags;
use crate::names::{OpensDevice, PartNames};
use crate::receiving::take_receivable;
use blk_base::NoMemory;
use order_model::{Command, Completion, Inlet, OrderedDev, Outlet};
use schedulers::dispatch::{CommandEnd, PostEnd};
use std::alloc::Global;
use std::marker::Model;
use std::sync::Wait;

/// The device of a session, its two ends of the queues, and its events.
///
/// A completion that the full queue refused is kept here, and is the next that is sent. A command that the device may not be
/// given is put aside, and no further one is taken then.
pub struct DeviceSide<'a, D: OrderedDev + OpensDevice, N: PartNames, H: Wait> {
    dev: D,
    flags: IdFlags,
    kept: Option<Completion>,
    unfit: Option<Command>,
    from: CommandEnd<'a, N, H>,
    out: PostEnd<'a, N, H>,
    events: Vec<DeviceEvent>,
}

impl<'a, D: OrderedDev + OpensDevice, N: PartNames, H: Wait> Model for DeviceSide<'a, D, N, H> {
    ghost use Rattle.order_model.specs.Machine.{machine_of};
    ghost use Rattle.thread_sides.specs.DeviceReplay.{DeviceSideSeen, IsDeviceReplay};

    ghost Value = { DeviceSideSeen };

    ghost view = { λ s. record { seen = D.seen (D.state s.dev); events = s.events.items; sent = s.out.passed; taken = s.from.passed } };

    ghost invariant = { λ s. IsDeviceReplay (machine_of D.OrderedDev) (D.state (D.opened_over N.image N.setup)) (record { now = record { dev = D.state s.dev; flags = s.flags; kept = s.kept; unfit = s.unfit }; events = s.events.items; sent = s.out.passed; taken = s.from.passed }) };
}

impl<'a, D: OrderedDev + OpensDevice, N: PartNames, H: Wait> DeviceSide<'a, D, N, H> {
    /// The side of the device that the session opens, with one flag for each id.
    pub fn open(
        alloc: Global,
        dev: D,
        flags: IdFlags,
        from: CommandEnd<'a, N, H>,
        out: PostEnd<'a, N, H>,
    ) -> DeviceSide<'a, D, N, H>
        requires opened { D.state dev ≡ D.state (D.opened_over N.image N.setup) }
        requires new { IsUntouched (D.seen (D.state dev)) }
        requires flags { flags ≡ replicate (D.seen (D.state dev)).limit false }
        requires ends { (from.passed ≡ []) × (out.passed ≡ []) }
        ensures seen { result.seen ≡ D.seen (D.state dev) }
        ensures events { result.events ≡ [] }
    {
        DeviceSide {
            dev,
            flags,
            kept: None,
            unfit: None,
            from,
            out,
            events: Vec::new(alloc),
        }
    }

    /// The device takes the next command, where there is one and there is room. Tells whether anything was done.
    pub fn receive(&mut self) -> Result<bool, NoMemory> {
        self.events.reserve(1)?;
        if self.unfit.is_some() || !self.dev.room() {
            return Ok(false);
        }
        let blocks = self.dev.blocks();
        let Some(command) = self.from.take() else {
            return Ok(false);
        };
        if take_receivable(&mut self.flags, blocks, &command) {
            self.dev.take_in(&command);
            self.events.push_reserved(DeviceEvent::Receive);
        } else {
            // The flags may say some of its ids already, and are of no use any more.
            self.unfit = Some(command);
            self.flags.clear();
            self.events.push_reserved(DeviceEvent::Receive);
        }
        Ok(true)
    }

    /// The device transfers the command of this pick. Tells whether there was one.
    pub fn transfer(&mut self, pick: u32) -> Result<bool, NoMemory> {
        self.events.reserve(1)?;
        let _ = self.dev.blocks();
        if pick >= self.dev.can_transfer() {
            return Ok(false);
        }
        self.dev.transfer(pick);
        self.events.push_reserved(DeviceEvent::Transfer(pick));
        Ok(true)
    }

    /// The device writes the block of this pick to the medium. Tells whether there was one.
    pub fn persist(&mut self, pick: u32) -> Result<bool, NoMemory> {
        self.events.reserve(1)?;
        let _ = self.dev.blocks();
        if pick >= self.dev.can_persist() {
            return Ok(false);
        }
        self.dev.persist(pick);
        self.events.push_reserved(DeviceEvent::Persist(pick));
        Ok(true)
    }

    /// The completion that is kept is sent, or else the device's next one. Tells whether anything was done.
    pub fn answer(&mut self) -> Result<bool, NoMemory> {
        self.events.reserve(1)?;
        let _ = self.dev.blocks();
        if let Some(completion) = self.kept {
            return match self.out.put(completion) {
                Ok(()) => {
                    self.kept = None;
                    self.events.push_reserved(DeviceEvent::Answer(false));
                    Ok(true)
                }
                Err(_) => Ok(false),
            };
        }
        let Some(completion) = self.dev.answer() else {
            return Ok(false);
        };
        match self.out.put(completion) {
            Ok(()) => self.events.push_reserved(DeviceEvent::Answer(false)),
            Err(back) => {
                self.kept = Some(back);
                self.events.push_reserved(DeviceEvent::Answer(true));
            }
        }
        Ok(true)
    }

    /// As `transfer` does, with the pick that this word gives.
    pub fn transfer_word(&mut self, word: u32) -> Result<bool, NoMemory> {
        let count = self.dev.can_transfer();
        let pick = if count == 0 { 0 } else { word % count };
        self.transfer(pick)
    }

    /// As `persist` does, with the pick that this word gives.
    pub fn persist_word(&mut self, word: u32) -> Result<bool, NoMemory> {
        let count = self.dev.can_persist();
        let pick = if count == 0 { 0 } else { word % count };
        self.persist(pick)
    }

    pub fn dev(&self) -> &D
        ensures { D.seen (D.state result.now) ≡ self.now.seen }
    {
        &self.dev
    }

    pub fn events(&self) -> &[DeviceEvent]
        ensures { result.now ≡ self.now.events }
    {
        self.events.as_slice()
    }

    /// Takes the side apart.
    pub fn into_parts(self) -> (D, Vec<DeviceEvent>, CommandEnd<'a, N, H>, PostEnd<'a, N, H>)
        ensures side { WasInSide (machine_of D.OrderedDev) (D.state (D.opened_over N.image N.setup)) (D.state result.0) result.1.items result.3.passed result.2.passed }
        ensures seen { D.seen (D.state result.0) ≡ self.entry.seen }
    {
        let DeviceSide {
            dev,
            flags: _,
            kept: _,
            unfit: _,
            from,
            out,
            events,
        } = self;
        (dev, events, from, out)
    }
}
