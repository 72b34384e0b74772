//! The two queues of the block layer, before and behind its scheduler.
ghost use Rattle.std.specs.Prelude.{◌≡◌, ◌∷◌, false, List, IfOk};
ghost use Rattle.order_model.specs.declared.command.Command.{Command};
ghost use Rattle.order_model.specs.declared.request.Request.{Request};
ghost use Rattle.order_model.specs.Device.{IsReceivable};
ghost use Rattle.order_model.specs.Machine.{machine_of};
ghost use Rattle.schedulers.specs.reassign.Scheduler.{IsAcceptable};
ghost use Rattle.stack_core.specs.BlockLayer.{QueuesState, opened_queues, submitted, layer_accepted, layer_dispatched, given_first};
ghost use Rattle.stack_core.specs.Dispatching.{with_submission};
ghost use Rattle.stack_core.specs.Handing.{handed};

use crate::dispatch_queue::DispatchQueue;
use blk_base::NoMemory;
use order_model::{Inlet, ListQueue, OrderedDev, Request};
use schedulers::reassign::Scheduler;
use script_grammar::RequestList;
use std::alloc::Global;
use std::marker::Model;

/// The submission queue before a scheduler and the dispatch queue behind it.
///
/// All its room is reserved by `make`: no other call takes memory.
#[derive(Drop)]
pub struct SchedulerQueues {
    // How many requests were submitted.
    next: usize,
    submission: ListQueue<Request>,
    behind: DispatchQueue,
}

impl Model for SchedulerQueues {
    ghost use Rattle.stack_core.specs.BlockLayer.{QueuesState};
    ghost use Rattle.stack_core.specs.code.Fields.{queues_of, HaveOneCapacity};

    ghost Value = { QueuesState };

    ghost view = { queues_of };

    ghost invariant = { HaveOneCapacity };
}

impl SchedulerQueues {
    /// Two empty queues of this capacity.
    pub fn make(alloc: Global, capacity: u32) -> Result<SchedulerQueues, NoMemory>
        ensures { IfOk result (λ s. s ≡ opened_queues capacity) }
    {
        Ok(SchedulerQueues {
            next: 0,
            submission: ListQueue::make(alloc, capacity)?,
            behind: DispatchQueue::make(alloc, capacity)?,
        })
    }

    /// How many requests were submitted.
    pub fn submitted(&self) -> usize
        ensures { result ≡ self.now.next }
    {
        self.next
    }

    /// The next of the requests goes into the submission queue, where there is one and the queue is not
    /// full. Otherwise it answers false.
    pub fn submit(&mut self, requests: &RequestList) -> bool
        ensures step { self.new ≡ submitted requests.now self.old }
        ensures idle { result ≡ false → self.new ≡ self.old }
    {
        if self.submission.is_full() {
            return false;
        }
        let Some(request) = requests.get(self.next) else {
            return false;
        };
        self.submission.push(request);
        self.next += 1;
        true
    }

    /// The scheduler takes a request from the submission queue, where it can accept one and there is one. Otherwise it
    /// answers false.
    pub fn accept<S: Scheduler>(&mut self, sched: &mut S) -> bool
        requires { (r : Request) (rs : List Request) → self.old.submission ≡ r ∷ rs → IsAcceptable (S.steps.seen (S.state sched.old)) r }
        ensures step { record { queues = self.new; sched = S.state sched.new } ≡ layer_accepted S.steps (record { queues = self.old; sched = S.state sched.old }) }
        ensures idle { result ≡ false → (self.new ≡ self.old) × (S.state sched.new ≡ S.state sched.old) }
    {
        accept_from(&mut self.submission, sched)
    }

    /// The command that is kept is sent, or else the one of the scheduler's pick. It answers false where nothing was done.
    pub fn dispatch<S: Scheduler>(&mut self, sched: &mut S, pick: u32) -> bool
        ensures step { record { queues = self.new; sched = S.state sched.new } ≡ layer_dispatched S.steps (record { queues = self.old; sched = S.state sched.old }) pick }
        ensures idle { result ≡ false → (self.new ≡ self.old) × (S.state sched.new ≡ S.state sched.old) }
    {
        self.behind.dispatch(sched, pick)
    }

    /// The first command behind the scheduler goes to the device, where there is one and there is room. Otherwise it
    /// answers false.
    pub fn hand_to<D: OrderedDev>(&mut self, dev: &mut D) -> bool
        requires { (c : Command) (cs : List Command) → self.old.dispatched ≡ c ∷ cs → IsReceivable (D.seen (D.state dev.old)) c }
        ensures step { record { before = self.new; dev = D.state dev.new } ≡
            handed (machine_of D.OrderedDev) (record { before = self.old; dev = D.state dev.old }) (given_first self.old self.old.dispatched) }
        ensures idle { result ≡ false → (self.new ≡ self.old) × (D.state dev.new ≡ D.state dev.old) }
    {
        self.behind.hand_to(dev)
    }
}

/// The scheduler takes a request from this submission queue, where it can accept one and there is one. Otherwise it
/// answers false.
pub fn accept_from<S: Scheduler>(submission: &mut ListQueue<Request>, sched: &mut S) -> bool
    requires { (r : Request) (rs : List Request) → submission.old.held ≡ r ∷ rs → IsAcceptable (S.steps.seen (S.state sched.old)) r }
    ensures step { (q : QueuesState) → record { queues = with_submission q submission.new.held; sched = S.state sched.new } ≡
        layer_accepted S.steps (record { queues = with_submission q submission.old.held; sched = S.state sched.old }) }
    ensures capacity { submission.new.capacity ≡ submission.old.capacity }
    ensures idle { result ≡ false → (submission.new ≡ submission.old) × (S.state sched.new ≡ S.state sched.old) }
{
    if !sched.can_accept() {
        return false;
    }
    let Some(request) = submission.take() else {
        return false;
    };
    let _ = sched.accept(request);
    true
}
