//! The callers' steps.
ghost use Rattle.std.specs.Prelude.{◌≡◌, ◌++◌, ◌-◌, ◌≤◌};
ghost use Rattle.flush_actor.specs.Outcomes.{sent_between};
ghost use Rattle.host_answers.specs.declared.step.Cause.TheVariants as reasons;
ghost use Rattle.host_answers.specs.declared.step.Step.TheVariants as steps;
ghost use Rattle.host_core.specs.Answers.{IfStepped, found_queue_full};
ghost use Rattle.host_core.specs.Now.{model_now, setup_now, with_host};
ghost use Rattle.host_machine.specs.Host as machine;

use crate::Host;
use crate::at_once::{PlainVolume, plain_calls_step_on_their_parts};
use crate::begun::begun_calls_step_on_their_parts;
use crate::settling::settle;
use crate::stepping::step_call;
use host_answers::Step;
use order_model::{Outlet, Request};
use std::alloc::Global;
use tree_model::{Call, Reply};

impl Host {
    /// The next step of a thread; they are counted from 1. Where memory is refused, all is as it was.
    pub fn advance<O: Outlet<Request>>(&mut self, alloc: Global, thread: u32, out: &mut O) -> Step
        requires thread { 1 ≤ thread }
        ensures step { IfStepped result (λ answer. record { host = self.new.host; step = answer } ≡
            machine.advance (model_now self.old) (setup_now self.old) (found_queue_full result) self.old.host (thread - 1)) }
        ensures memory { result ≡ steps.NoMemory → self.new ≡ self.old }
        ensures same { self.new ≡ with_host self.old self.new.host }
        ensures sent { O.sent out.new ≡ O.sent out.old ++ sent_between self.old.host.journal.flush self.new.host.journal.flush }
        ensures full { result ≡ steps.Waiting reasons.QueueFull → O.was_full out.old out.new }
        ensures rest { O.rest out.new ≡ O.rest out.old }
    {
        plain_calls_step_on_their_parts();
        // A begun call asks nothing of the trees, so numbers stand for them here.
        begun_calls_step_on_their_parts::<u64, PlainVolume, Call, Reply>();
        let at = thread - 1;
        let Some(caller) = self.threads.get(at as usize) else {
            return Step::Ended;
        };
        let Some(call) = caller.program.get(caller.ended as usize) else {
            return Step::Ended;
        };
        if self.history.reserve(1).is_err() {
            return Step::NoMemory;
        }
        let number = self.history.len() as u64 + 1;
        let parts = &mut self.parts;
        let Ok(found) = step_call(
            alloc,
            parts,
            number,
            at,
            caller.ended,
            &caller.begun,
            call,
            out,
        ) else {
            return Step::NoMemory;
        };
        let caller = &mut self.threads[at as usize];
        settle(&mut parts.journal, &mut self.history, caller, thread, found)
    }
}
