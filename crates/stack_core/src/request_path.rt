//! The request path: how the requests of a script reach the device.
ghost use Rattle.std.specs.Prelude.{◌≡◌, false, Some, IfOk};
ghost use Rattle.order_model.specs.declared.command.Command.{Command};
ghost use Rattle.order_model.specs.Device.{Seen, IsReceivable};
ghost use Rattle.order_model.specs.Machine.{machine_of};
ghost use Rattle.stack_core.specs.declared.request_path.RequestPath.{RequestPath};
ghost use Rattle.stack_core.specs.Handing.{handed};
ghost use Rattle.stack_core.specs.RequestPath.{PathState, opened_path, stepped, given, submitted_count, PathFits};

use crate::direct_path::DirectPath;
use crate::scheduler_queues::SchedulerQueues;
use blk_base::NoMemory;
use order_model::OrderedDev;
use schedulers::reassign::Scheduler;
use script_grammar::{CoreEvent, Form, RequestList, Script};
use std::alloc::Global;

/// The request path: how the requests of a script reach the device.
#[derive(Drop)]
pub enum RequestPath {
    /// Each as a command of its own.
    Direct(DirectPath),
    /// Through the block layer.
    Scheduled(SchedulerQueues),
}

impl RequestPath {
    /// The request path when the script begins.
    pub fn open(alloc: Global, script: &Script) -> Result<RequestPath, NoMemory>
        ensures { IfOk result (λ f. f ≡ opened_path script.now) }
    {
        match script.kind {
            Form::Device(_) => Ok(RequestPath::Direct(DirectPath::new())),
            Form::Blocks(_) => {
                let queues = SchedulerQueues::make(alloc, script.header.queue)?;
                Ok(RequestPath::Scheduled(queues))
            }
        }
    }

    /// How many requests the host submitted.
    pub fn submitted(&self) -> usize
        ensures { result ≡ submitted_count self.now }
    {
        match self {
            RequestPath::Direct(direct) => direct.submitted(),
            RequestPath::Scheduled(queues) => queues.submitted(),
        }
    }

    /// An event of the host or the scheduler. Those of the device do nothing here. It answers false where nothing was done.
    pub fn step<S: Scheduler>(
        &mut self,
        sched: &mut S,
        requests: &RequestList,
        event: CoreEvent,
    ) -> bool
        requires { (d : Seen) × PathFits self.old (S.steps.seen (S.state sched.old)) requests.now d }
        ensures step { record { path = self.new; sched = S.state sched.new } ≡ stepped S.steps requests.now (record { path = self.old; sched = S.state sched.old }) event }
        ensures idle { result ≡ false → (self.new ≡ self.old) × (S.state sched.new ≡ S.state sched.old) }
    {
        let RequestPath::Scheduled(queues) = self else {
            return false;
        };
        match event {
            CoreEvent::Submit => queues.submit(requests),
            CoreEvent::Accept => queues.accept(sched),
            CoreEvent::Dispatch(pick) => queues.dispatch(sched, pick),
            _ => false,
        }
    }

    /// The next command goes to the device, where there is one and there is room. Otherwise it answers false.
    pub fn hand_to<D: OrderedDev>(&mut self, dev: &mut D, requests: &RequestList) -> bool
        requires { (c : Command) (f : RequestPath) → given requests.now self.old ≡ Some (c, f) → IsReceivable (D.seen (D.state dev.old)) c }
        ensures step { record { before = self.new; dev = D.state dev.new } ≡
            handed (machine_of D.OrderedDev) (record { before = self.old; dev = D.state dev.old }) (given requests.now self.old) }
        ensures idle { result ≡ false → (self.new ≡ self.old) × (D.state dev.new ≡ D.state dev.old) }
    {
        match self {
            RequestPath::Direct(direct) => direct.hand_to(dev, requests),
            RequestPath::Scheduled(queues) => queues.hand_to(dev),
        }
    }
}
