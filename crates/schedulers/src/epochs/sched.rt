//! The plain scheduler.
ghost use Rattle.std.specs.Prelude.{◌≡◌, IfOk};
ghost use Rattle.schedulers.specs.reassign.Sched.{SchedState, opened, seen_of, sched_steps};
ghost use Rattle.schedulers.specs.reassign.Scheduler.{IsNewScheduler};
ghost use Rattle.schedulers.specs.reassign.laws.Valid.{IsValid};
ghost use Rattle.schedulers.specs.reassign.laws.SchedulerLaws as laws;

use crate::reassign::{CAPACITY, EpochQueue, Held, LONGEST, Scheduler};
use blk_base::NoMemory;
use order_model::{Command, Request, SchedRecord, Tally};
use std::alloc::Global;
use std::marker::Model;

/// A scheduler with one queue, which sends each request as a command of its own.
///
/// All its room is reserved by `make`: no other call takes memory.
#[derive(Drop)]
pub struct Sched {
    limit: u64,
    queue: EpochQueue,
    trace: SchedRecord,
}

impl Model for Sched {
    ghost use Rattle.schedulers.specs.reassign.Sched.{SchedState};

    ghost Value = { SchedState };

    ghost use Rattle.schedulers.specs.epochs.code.Fields.{state_of, IsSched};

    ghost view = { state_of };

    ghost invariant = { IsSched };
}

impl Sched {
    /// A scheduler that may accept so many requests in all, of which `CAPACITY` may wait. It is refused as for want
    /// of memory above `LONGEST`.
    pub fn make(alloc: Global, limit: u64) -> Result<Sched, NoMemory>
        ensures state { IfOk result (λ s. s ≡ opened limit CAPACITY) }
        ensures new { IfOk result (λ s. IsNewScheduler limit CAPACITY (seen_of s)) }
    {
        if limit > LONGEST {
            return Err(NoMemory);
        }
        let room = limit as usize;
        Ok(Sched {
            limit,
            queue: EpochQueue::make(alloc, CAPACITY)?,
            trace: SchedRecord {
                accepted: Tally::make(room),
                sent_out: Tally::make(room),
            },
        })
    }
}

impl Scheduler for Sched {
    ghost State = { SchedState };

    ghost state = { λ s. s };

    ghost steps = { sched_steps };

    ghost valid = { IsValid };

    fn can_accept(&self) -> bool {
        self.queue.can_accept()
    }

    fn accept(&mut self, r: Request) -> Result<(), (Request, Held)> {
        self.queue.accept_recorded(&mut self.trace.accepted, r)
    }

    fn eligible(&self) -> u32 {
        self.queue.eligible()
    }

    fn dispatch(&mut self, pick: u32) -> Option<Command> {
        let mut command = Command::blank();
        if self.dispatch_into(pick, &mut command) {
            Some(command)
        } else {
            None
        }
    }

    fn dispatch_into(&mut self, pick: u32, into: &mut Command) -> bool {
        let Some((r, flagged)) = self.queue.leave(pick) else {
            return false;
        };
        into.carry(r, flagged);
        self.trace.sent_out.push(into);
        true
    }

    fn trace(&self) -> &SchedRecord {
        &self.trace
    }

    fn into_trace(self) -> SchedRecord {
        self.trace
    }

    ghost keeps = { laws.keeps };
}
