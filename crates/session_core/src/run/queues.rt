//! The queues of a session.
ghost use Rattle.std.specs.Prelude.{◌≡◌, ◌≢◌, ◌-◌, ◌≤◌, ◌∷◌, ℕ, false, List, Some, IfOk, OnErr, OnOk, slice_get, length};
ghost use Rattle.order_model.specs.declared.command.Command.{Command};
ghost use Rattle.order_model.specs.declared.request.Request.{Request};
ghost use Rattle.order_model.specs.Device.{IsReceivable};
ghost use Rattle.order_model.specs.Machine.{machine_of};
ghost use Rattle.order_model.specs.declared.turn.Turn.TheVariants as turns;
ghost use Rattle.host_answers.specs.declared.step.Step.TheVariants as answers;
ghost use Rattle.schedulers.specs.reassign.Scheduler.{IsAcceptable};
ghost use Rattle.stack_core.specs.BlockLayer.{layer_accepted, layer_dispatched, given_first};
ghost use Rattle.stack_core.specs.Handing.{handed};
ghost use Rattle.flush_actor.specs.Outcomes.{sent_between};
ghost use Rattle.host_machine.specs.Host as machine;
ghost use Rattle.host_core.specs.Now.{model_now, setup_now, with_host};
ghost use Rattle.session_core.specs.run.machine.Machine.{is_full, left_over};
ghost use Rattle.session_core.specs.run.code.Queues.{no_items, with_sent, with_completion, layer_queues};

use blk_base::NoMemory;
use host_answers::Step;
use host_core::Host;
use order_model::{Completion, ListQueue, OrderedDev, Request, Turn};
use schedulers::reassign::Scheduler;
use stack_core::{DispatchQueue, accept_from};
use std::alloc::Global;
use std::marker::Model;

/// The queues of a session: of requests before the scheduler, of commands behind it, and of completions on their way to
/// the host.
///
/// All their room is reserved by `make`: no other call takes memory for them.
#[derive(Drop)]
pub struct SessionQueues {
    submission: ListQueue<Request>,
    behind: DispatchQueue,
    completions: ListQueue<Completion>,
    // A completion that found its queue full.
    kept: Option<Completion>,
}

impl Model for SessionQueues {
    ghost use Rattle.session_core.specs.run.code.Queues.{QueuesNow};
    ghost use Rattle.session_core.specs.run.code.Fields.{queues_of, HaveOneCapacity};

    ghost Value = { QueuesNow };

    ghost view = { queues_of };

    ghost invariant = { HaveOneCapacity };
}

impl SessionQueues {
    /// Empty queues of this capacity.
    pub fn make(alloc: Global, capacity: u32) -> Result<SessionQueues, NoMemory>
        ensures { IfOk result (λ q. q ≡ no_items capacity) }
    {
        Ok(SessionQueues {
            submission: ListQueue::make(alloc, capacity)?,
            behind: DispatchQueue::make(alloc, capacity)?,
            completions: ListQueue::make(alloc, capacity)?,
            kept: None,
        })
    }

    // ---- the host

    /// The next step of a thread of the host, which are counted from 1. Where memory is refused, all is as it was.
    pub fn call(&mut self, alloc: Global, host: &mut Host, thread: u32) -> Result<(), NoMemory>
        requires { 1 ≤ thread }
        ensures host { OnOk result (host.new ≡ with_host host.old
            (machine.advance (model_now host.old) (setup_now host.old) (is_full self.old.capacity self.old.submission) host.old.host (thread - 1)).host) }
        ensures queues { OnOk result (self.new ≡ with_sent self.old (sent_between host.old.host.journal.flush host.new.host.journal.flush)) }
        ensures err { OnErr result ((host.new ≡ host.old) × (self.new ≡ self.old)) }
    {
        self.submission.known();
        let step = host.advance(alloc, thread, &mut self.submission);
        self.submission.known();
        unless_refused(&step)
    }

    /// The step of the host's commit actor. Where memory is refused, all is as it was.
    pub fn commit(&mut self, alloc: Global, host: &mut Host) -> Result<(), NoMemory>
        ensures host { OnOk result (host.new ≡ with_host host.old
            (machine.commit_step (model_now host.old) (setup_now host.old) (is_full self.old.capacity self.old.submission) host.old.host).host) }
        ensures queues { OnOk result (self.new ≡ with_sent self.old (sent_between host.old.host.journal.flush host.new.host.journal.flush)) }
        ensures err { OnErr result ((host.new ≡ host.old) × (self.new ≡ self.old)) }
    {
        self.submission.known();
        let turn = host.commit_step(alloc, &mut self.submission);
        self.submission.known();
        unless_out_of_memory(turn)
    }

    /// The host sends the Dirty page of this number.
    pub fn writeback(&mut self, host: &mut Host, pick: u32)
        ensures host { host.new ≡ with_host host.old
            (machine.writeback (model_now host.old) (setup_now host.old) (is_full self.old.capacity self.old.submission) host.old.host pick).host }
        ensures queues { self.new ≡ with_sent self.old (sent_between host.old.host.journal.flush host.new.host.journal.flush) }
    {
        self.submission.known();
        let _ = host.writeback(pick, &mut self.submission);
        self.submission.known();
    }

    /// The step of the host's flush actor: a flush where one is due, or else the first completion.
    pub fn flush(&mut self, host: &mut Host)
        requires { length host.old.host.journal.flush.taken ≤ host.old.host.journal.flush.limit }
        ensures host { host.new ≡ with_host host.old
            (machine.flush_step (model_now host.old) (setup_now host.old) (is_full self.old.capacity self.old.submission) host.old.host (slice_get self.old.completions 0)).host }
        ensures queues { self.new ≡ record (with_sent self.old (sent_between host.old.host.journal.flush host.new.host.journal.flush))
            { completions = left_over host.old.host.journal.flush self.old.completions } }
    {
        self.submission.known();
        self.completions.known();
        let _ = host.flush_step(&mut self.submission, &mut self.completions);
        self.submission.known();
        self.completions.known();
    }

    // ---- the block layer

    /// The scheduler takes a request, where it can accept one and there is one. Otherwise it answers false.
    pub fn accept<S: Scheduler>(&mut self, sched: &mut S) -> bool
        requires { (r : Request) (rs : List Request) → self.old.submission ≡ r ∷ rs → IsAcceptable (S.steps.seen (S.state sched.old)) r }
        ensures step { (n : ℕ) → record { queues = layer_queues n self.new; sched = S.state sched.new } ≡
            layer_accepted S.steps (record { queues = layer_queues n self.old; sched = S.state sched.old }) }
        ensures completions { self.new.completions ≡ self.old.completions }
        ensures kept { self.new.kept ≡ self.old.kept }
        ensures idle { result ≡ false → (self.new ≡ self.old) × (S.state sched.new ≡ S.state sched.old) }
    {
        accept_from(&mut self.submission, sched)
    }

    /// The command that is kept is sent, or else the one of the scheduler's pick. It answers false where nothing was done.
    pub fn dispatch<S: Scheduler>(&mut self, sched: &mut S, pick: u32) -> bool
        ensures step { (n : ℕ) → record { queues = layer_queues n self.new; sched = S.state sched.new } ≡
            layer_dispatched S.steps (record { queues = layer_queues n self.old; sched = S.state sched.old }) pick }
        ensures completions { self.new.completions ≡ self.old.completions }
        ensures kept { self.new.kept ≡ self.old.kept }
        ensures idle { result ≡ false → (self.new ≡ self.old) × (S.state sched.new ≡ S.state sched.old) }
    {
        self.behind.dispatch(sched, pick)
    }

    // ---- the device

    /// The first command behind the scheduler goes to the device, where there is one and there is room. Otherwise it
    /// answers false.
    pub fn hand_to<D: OrderedDev>(&mut self, dev: &mut D) -> bool
        requires { (c : Command) (cs : List Command) → self.old.dispatched ≡ c ∷ cs → IsReceivable (D.seen (D.state dev.old)) c }
        ensures step { (n : ℕ) → record { before = layer_queues n self.new; dev = D.state dev.new } ≡
            handed (machine_of D.OrderedDev) (record { before = layer_queues n self.old; dev = D.state dev.old }) (given_first (layer_queues n self.old) self.old.dispatched) }
        ensures completions { self.new.completions ≡ self.old.completions }
        ensures kept { self.new.kept ≡ self.old.kept }
        ensures idle { result ≡ false → (self.new ≡ self.old) × (D.state dev.new ≡ D.state dev.old) }
    {
        self.behind.hand_to(dev)
    }

    /// The completion that is kept.
    pub fn kept(&self) -> Option<Completion>
        ensures { result ≡ self.now.kept }
    {
        self.kept
    }

    /// The completion goes into its queue; where that is full, it is kept, and the answer is false.
    pub fn complete(&mut self, completion: Completion) -> bool
        ensures step { self.new ≡ with_completion self.old completion }
        ensures full { result ≡ false → self.new ≡ record self.old { kept = Some completion } }
    {
        if self.completions.is_full() {
            self.kept = Some(completion);
            return false;
        }
        self.completions.push(completion);
        self.kept = None;
        true
    }
}

// Whether a thread's step was refused memory.
fn unless_refused(step: &Step) -> Result<(), NoMemory>
    ensures ok { OnOk result (step.now ≢ answers.NoMemory) }
    ensures err { OnErr result (step.now ≡ answers.NoMemory) }
{
    match step {
        Step::NoMemory => Err(NoMemory),
        _ => Ok(()),
    }
}

// Whether an actor's step was refused memory.
fn unless_out_of_memory(turn: Turn) -> Result<(), NoMemory>
    ensures ok { OnOk result (turn ≢ turns.NoMemory) }
    ensures err { OnErr result (turn ≡ turns.NoMemory) }
{
    match turn {
        Turn::NoMemory => Err(NoMemory),
        _ => Ok(()),
    }
}
