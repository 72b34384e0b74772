//! The elevator.
ghost use Rattle.std.specs.Prelude.{◌≡◌, ℕ, ◌<◌, ◌↔◌, List, length, Some, slice_get, IfOk};
ghost use Rattle.blk_base.specs.Members.{In};
ghost use Rattle.schedulers.specs.reassign.Epoch.{Waiting, eligible};
ghost use Rattle.schedulers.specs.reassign.Scheduler.{IsNewScheduler};
ghost use Rattle.schedulers.specs.elevator.Elevator.{ElevatorState, opened, seen_of, listed, meets_before, block_of, elevator_steps};
ghost use Rattle.schedulers.specs.elevator.laws.List.{Meets};
ghost use Rattle.schedulers.specs.elevator.laws.Valid.{IsElevator};
ghost use Rattle.schedulers.specs.elevator.laws.Scheduler as laws;

use crate::elevator::gathering::{head_after, take_together};
use crate::elevator::searches::find_listed;
use crate::reassign::{CAPACITY, EpochQueue, Held, LONGEST, Scheduler};
use blk_base::NoMemory;
use order_model::{Command, Request, SchedRecord, Tally};
use std::alloc::Global;
use std::marker::Model;

/// A scheduler that sends requests in rising order of block from where its last command ended, then from the
/// lowest block on, and up to 16 puts of consecutive blocks in one command.
///
/// All its room is reserved by `make`: no other call takes memory.
#[derive(Drop)]
pub struct Elevator {
    limit: u64,
    queue: EpochQueue,
    head: u64,
    trace: SchedRecord,
}

impl Model for Elevator {
    ghost use Rattle.schedulers.specs.elevator.Elevator.{ElevatorState};

    ghost Value = { ElevatorState };

    ghost use Rattle.schedulers.specs.elevator.code.Fields.{state_of, IsInside};

    ghost view = { state_of };

    ghost invariant = { IsInside };
}

impl Elevator {
    /// An elevator at block 0 that may accept so many requests in all, of which `CAPACITY` may wait. It is
    /// refused as for want of memory above `LONGEST`.
    pub fn make(alloc: Global, limit: u64) -> Result<Elevator, NoMemory>
        ensures state { IfOk result (λ s. s ≡ opened limit CAPACITY) }
        ensures new { IfOk result (λ s. IsNewScheduler limit CAPACITY (seen_of s)) }
    {
        if limit > LONGEST {
            return Err(NoMemory);
        }
        let room = limit as usize;
        Ok(Elevator {
            limit,
            queue: EpochQueue::make(alloc, CAPACITY)?,
            head: 0,
            trace: SchedRecord {
                accepted: Tally::make(room),
                sent_out: Tally::make(room),
            },
        })
    }
}

impl Scheduler for Elevator {
    ghost State = { ElevatorState };

    ghost state = { λ s. s };

    ghost steps = { elevator_steps };

    ghost valid = { IsElevator };

    fn can_accept(&self) -> bool {
        self.queue.can_accept()
    }

    fn accept(&mut self, r: Request) -> Result<(), (Request, Held)> {
        self.queue.accept_recorded(&mut self.trace.accepted, r)
    }

    fn eligible(&self) -> u32 {
        self.queue.eligible()
    }

    fn dispatch(&mut self, pick: u32) -> Option<Command> {
        let mut command = Command::blank();
        if self.dispatch_into(pick, &mut command) {
            Some(command)
        } else {
            None
        }
    }

    fn dispatch_into(&mut self, pick: u32, into: &mut Command) -> bool {
        let Some(at) = find_listed(&self.queue, self.head, pick) else {
            return false;
        };
        if !take_together(&mut self.queue, at, into) {
            return false;
        }
        self.head = head_after(self.head, &into.parts);
        self.trace.sent_out.push(into);
        true
    }

    fn trace(&self) -> &SchedRecord {
        &self.trace
    }

    fn into_trace(self) -> SchedRecord {
        self.trace
    }

    ghost keeps = { laws.keeps };
}

/// The elevator's list has the requests that may leave, each before those that the head meets later.
///
/// A law alone: the call does nothing.
pub fn lists_requests_as_the_head_meets_them()
    ensures same { (s : ElevatorState) (w : Waiting) → In w (listed s.head s.queue.waiting) ↔ In w (eligible s.queue.waiting) }
    ensures count { (s : ElevatorState) → length (listed s.head s.queue.waiting) ≡ length (eligible s.queue.waiting) }
    ensures order { (s : ElevatorState) (i j : ℕ) (u w : Waiting) → IsElevator s → i < j → slice_get (listed s.head s.queue.waiting) i ≡ Some u → slice_get (listed s.head s.queue.waiting) j ≡ Some w → Meets s.head (block_of u.request.kind) (block_of w.request.kind) }
{}
