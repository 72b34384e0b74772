//! The queue behind a scheduler.
ghost use Rattle.std.specs.Prelude.{◌≡◌, false, List, [], ◌∷◌, None, IfOk};
ghost use Rattle.order_model.specs.declared.command.Command.{Command};
ghost use Rattle.order_model.specs.Device.{IsReceivable};
ghost use Rattle.order_model.specs.Machine.{machine_of};
ghost use Rattle.stack_core.specs.BlockLayer.{QueuesState, queued_or_kept_option, layer_dispatched, given_first};
ghost use Rattle.stack_core.specs.Dispatching.{with_dispatch};
ghost use Rattle.stack_core.specs.Handing.{handed};

use blk_base::NoMemory;
use device_epochs::queue::CommandRing;
use order_model::{Command, OrderedDev};
use schedulers::reassign::Scheduler;
use std::alloc::Global;
use std::marker::Model;

/// The dispatch queue behind a scheduler, with the command that found it full.
///
/// All its room is reserved by `make`: no other call takes memory, and none moves a command.
#[derive(Drop)]
pub struct DispatchQueue {
    // What the scheduler sent last. Where it found the queue full it is kept, and waits for room.
    last: Command,
    is_kept: bool,
    commands: CommandRing,
}

impl Model for DispatchQueue {
    ghost use Rattle.std.specs.Prelude.{Some, None, if◌then◌else◌};
    ghost use Rattle.stack_core.specs.Dispatching.{DispatchState};

    ghost Value = { DispatchState };

    ghost view = { λ d. record { capacity = d.commands.capacity; kept = (if d.is_kept then Some d.last else None); dispatched = d.commands.held } };
}

impl DispatchQueue {
    /// An empty queue of this capacity.
    pub fn make(alloc: Global, capacity: u32) -> Result<DispatchQueue, NoMemory>
        ensures { IfOk result (λ d. d ≡ record { capacity = capacity; kept = None; dispatched = [] }) }
    {
        Ok(DispatchQueue {
            last: Command::blank(),
            is_kept: false,
            commands: CommandRing::make(alloc, capacity)?,
        })
    }

    /// The command that is kept is sent, or else the one of the scheduler's pick. It answers false where nothing was done.
    pub fn dispatch<S: Scheduler>(&mut self, sched: &mut S, pick: u32) -> bool
        ensures step { (q : QueuesState) → record { queues = with_dispatch q self.new; sched = S.state sched.new } ≡
            layer_dispatched S.steps (record { queues = with_dispatch q self.old; sched = S.state sched.old }) pick }
        ensures capacity { self.new.capacity ≡ self.old.capacity }
        ensures idle { result ≡ false → (self.new ≡ self.old) × (S.state sched.new ≡ S.state sched.old) }
    {
        if self.is_kept {
            return self.send_kept();
        }
        if !sched.dispatch_into(pick, &mut self.last) {
            return false;
        }
        self.is_kept = true;
        self.send_kept();
        true
    }

    // The command that is kept goes into the queue, where there is one and the queue is not full. Otherwise it answers false.
    fn send_kept(&mut self) -> bool
        ensures step { (q : QueuesState) → with_dispatch q self.new ≡ queued_or_kept_option (with_dispatch q self.old) self.old.kept }
        ensures capacity { self.new.capacity ≡ self.old.capacity }
        ensures idle { result ≡ false → self.new ≡ self.old }
    {
        if !self.is_kept || self.commands.is_full() {
            return false;
        }
        self.commands.push(&self.last);
        self.is_kept = false;
        true
    }

    /// The first command goes to the device, where there is one and there is room. Otherwise it answers false.
    pub fn hand_to<D: OrderedDev>(&mut self, dev: &mut D) -> bool
        requires { (c : Command) (cs : List Command) → self.old.dispatched ≡ c ∷ cs → IsReceivable (D.seen (D.state dev.old)) c }
        ensures step { (q : QueuesState) → record { before = with_dispatch q self.new; dev = D.state dev.new } ≡
            handed (machine_of D.OrderedDev) (record { before = with_dispatch q self.old; dev = D.state dev.old }) (given_first (with_dispatch q self.old) self.old.dispatched) }
        ensures capacity { self.new.capacity ≡ self.old.capacity }
        ensures idle { result ≡ false → (self.new ≡ self.old) × (D.state dev.new ≡ D.state dev.old) }
    {
        if !dev.room() {
            return false;
        }
        let Some(command) = self.commands.first() else {
            return false;
        };
        dev.take_in(command);
        self.commands.remove_first();
        true
    }
}
