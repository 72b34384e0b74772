//! The ring of commands between a scheduler and a device.
ghost use Rattle.std.specs.Prelude.{◌≡◌, ◌<◌, ◌++◌, [], ◌∷◌, drop, not, nat_lt, length, IfOk, slice_get};
ghost use Rattle.std.specs.Option.{option_copied};
ghost use Rattle.device_epochs.specs.queue.code.Places.{wrapped};

use crate::queue::queue::blank_slots;
use blk_base::NoMemory;
use order_model::Command;
use std::alloc::Global;
use std::marker::Model;

/// The commands that a scheduler sends and a device has not taken in yet, for one thread.
///
/// Each lies in one slot from when it is pushed until it leaves. No call but `make` takes memory.
#[derive(Drop)]
pub struct CommandRing {
    slots: Vec<Command>,
    first: usize,
    count: usize,
}

impl Model for CommandRing {
    ghost use Rattle.std.specs.Prelude.{vec_len};
    ghost use Rattle.device_epochs.specs.queue.Ring.{RingState};

    ghost Value = { RingState };

    ghost use Rattle.device_epochs.specs.queue.code.Places.{held_from, IsRing};

    ghost view = { λ r. record { capacity = vec_len r.slots; held = held_from r.slots.items r.first r.count } };

    ghost invariant = { IsRing };
}

impl CommandRing {
    /// An empty ring of so many slots. One of no slots is always full.
    pub fn make(alloc: Global, capacity: u32) -> Result<CommandRing, NoMemory>
        ensures { IfOk result (λ q. q ≡ record { capacity = capacity; held = [] }) }
    {
        Ok(CommandRing {
            slots: blank_slots(alloc, capacity as usize)?,
            first: 0,
            count: 0,
        })
    }

    /// Whether there is no room for a push.
    pub fn is_full(&self) -> bool
        ensures { result ≡ not (nat_lt (length self.now.held) self.now.capacity) }
    {
        self.count == self.slots.len()
    }

    /// Takes the same as a command behind all others. It is copied part by part into its slot.
    pub fn push(&mut self, c: &Command)
        requires { length self.old.held < self.old.capacity }
        ensures { self.new ≡ record { capacity = self.old.capacity; held = self.old.held ++ c.now ∷ [] } }
    {
        let place = wrapped(self.first + self.count, self.slots.len());
        self.slots[place].refill(c);
        self.count += 1;
    }

    /// The command that was pushed before all others.
    pub fn first(&self) -> Option<&Command>
        ensures { option_copied result ≡ slice_get self.now.held 0 }
    {
        if self.count == 0 {
            return None;
        }
        Some(&self.slots[self.first])
    }

    /// The first command leaves, where there is one. Its bytes stay in its slot, which is free then.
    pub fn remove_first(&mut self)
        ensures { self.new ≡ record self.old { held = drop 1 self.old.held } }
    {
        if self.count == 0 {
            return;
        }
        self.first = wrapped(self.first + 1, self.slots.len());
        self.count -= 1;
    }
}

// Behind the last place comes the first.
fn wrapped(place: usize, capacity: usize) -> usize
    ensures { result ≡ wrapped place capacity }
{
    if place < capacity {
        place
    } else {
        place - capacity
    }
}
