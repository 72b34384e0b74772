//! Volume scripts as plain values.
ghost use Rattle.std.specs.Prelude.{◌≡◌, IfOk};

use blk_base::NoMemory;
use line_grammar::calls::{LineList, Programs};
use line_grammar::events::{Events, SteerList};
use std::alloc::Global;

/// The values of the header lines, with their defaults.
#[derive(Clone, Copy, PartialEq, Eq, Debug)]
pub struct SessionHeader {
    /// How many commands may wait in the device.
    pub depth: u32,
    /// How many items each queue between two parts of the stack holds.
    pub queue: u32,
    /// How many requests the session may have.
    pub limit: u64,
    /// The transfer with this number fails, counted from 1.
    pub fail: Option<u64>,
    /// The device is off after so many steps.
    pub cut: Option<u64>,
    /// What the picks of a run are drawn from.
    pub seed: u64,
    /// The scheduler is the elevator.
    pub elevator: bool,
    /// The device is a flash log of so many segments.
    pub flash: Option<u32>,
}

/// A volume script, as it was read.
#[derive(Drop)]
pub struct SessionScript {
    pub inodes: u16,
    /// All blocks of the volume.
    pub zones: u16,
    /// The blocks of the journal behind it.
    pub journal: u32,
    /// The bytes that a name may have: 14, or 30.
    pub width: u16,
    /// The journal has tags of 64 bits.
    pub wide: bool,
    pub header: SessionHeader,
    /// The calls of each thread, in the order of their numbers.
    pub programs: Programs,
    /// The line of each call, in the order of the script.
    pub lines: LineList,
    pub events: Events,
    /// The attempts of recovery that are cut, in order.
    pub recovers: SteerList,
}

impl SessionScript {
    /// The same script again.
    pub fn copy(&self, alloc: Global) -> Result<SessionScript, NoMemory>
        ensures { IfOk result (λ s. s ≡ self.now) }
    {
        Ok(SessionScript {
            inodes: self.inodes,
            zones: self.zones,
            journal: self.journal,
            width: self.width,
            wide: self.wide,
            header: self.header,
            programs: self.programs.copy(alloc)?,
            lines: self.lines.copy(alloc)?,
            events: self.events.copy(alloc)?,
            recovers: self.recovers.copy(alloc)?,
        })
    }
}
