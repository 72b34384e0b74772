//! Commands: what a scheduler sends to a device.
ghost use Rattle.std.specs.Prelude.{◌≡◌, if◌then◌else◌};
ghost use Rattle.order_model.specs.Single.{blank_command, command_of_request};

use crate::{Kind, Part, Parts, Request};

/// The task attribute of a command, by the SCSI architecture model (SAM-5): the device may reorder
/// SIMPLE commands among themselves, and no command passes an ORDERED one.
#[derive(Clone, Copy, PartialEq, Eq, Debug)]
pub enum Priority {
    Simple,
    Ordered,
}

/// A command of the scheduler to the device: some parts, or a flush.
#[derive(Drop)]
pub struct Command {
    pub parts: Parts,
    pub priority: Priority,
    /// The parts end an epoch of the device's cache.
    pub barrier: bool,
    /// The id of the flush. A flush has no parts, and every other command has some.
    pub flush: Option<u64>,
}

impl Command {
    /// A command of no parts, in which others are written.
    pub fn blank() -> Command
        ensures { result ≡ blank_command }
    {
        Command {
            parts: Parts::none(),
            priority: Priority::Simple,
            barrier: false,
            flush: None,
        }
    }

    /// The command that carries one request alone, ORDERED and a barrier where it is flagged. It takes no
    /// memory.
    pub fn of_request(r: Request, flagged: bool) -> Command
        ensures { result ≡ command_of_request r flagged }
    {
        let mut command = Command::blank();
        command.carry(r, flagged);
        command
    }

    /// Overwrites this command with the one that carries one request alone. Only 1 KB of its 16 is written.
    pub fn carry(&mut self, r: Request, flagged: bool)
        ensures { self.new ≡ command_of_request r flagged }
    {
        let id = r.id;
        self.priority = priority_of(flagged);
        self.barrier = flagged;
        match r.kind {
            Kind::Put { block, body } => {
                self.parts.set_one(Part { id, block, body });
                self.flush = None;
            }
            Kind::Flush => {
                self.parts.clear();
                self.flush = Some(id);
            }
        }
    }

    /// Becomes the same as another command. Its parts are copied, and nothing else of its 16 KB is moved.
    pub fn refill(&mut self, from: &Command)
        ensures { self.new ≡ from.now }
    {
        self.parts.refill(&from.parts);
        self.priority = from.priority;
        self.barrier = from.barrier;
        self.flush = from.flush;
    }
}

// A barrier is ORDERED.
fn priority_of(flagged: bool) -> Priority
    ensures { result ≡ (if flagged then Priority.Ordered else Priority.Simple) }
{
    if flagged {
        Priority::Ordered
    } else {
        Priority::Simple
    }
}
