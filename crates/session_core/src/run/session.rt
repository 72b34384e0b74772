//! A whole session.
ghost use Rattle.std.specs.Prelude.{◌≡◌, IfOk};
ghost use Rattle.order_model.specs.Machine.{machine_of};
ghost use Rattle.minix_host.specs.Sessions.{Opening};
ghost use Rattle.session_core.specs.run.machine.Machine.{Start, core_session};
ghost use Rattle.session_core.specs.run.Beginning.{IsMadeFor};
ghost use Rattle.session_core.specs.run.End.{IsEndOf, EndKeepsOrder};

use crate::run::machine::sessions_keep_order_to_the_medium;
use crate::run::queues::SessionQueues;
use crate::run::running::RunningSession;
use blk_base::NoMemory;
use host_core::Host;
use line_grammar::events::EventLine;
use order_model::{CutDisk, OrderedDev, SchedRecord};
use schedulers::reassign::Scheduler;
use std::alloc::Global;

/// What a session leaves: the host, what the scheduler did, and what a power cut left of the device.
#[derive(Drop)]
pub struct SessionEnd {
    pub host: Host,
    pub sched: SchedRecord,
    pub cut: CutDisk,
}

/// Runs a session of this host, which was made for it, on this scheduler and this device, with queues of this capacity:
/// all event lines, one after the other. Then it cuts the power.
pub fn run_session<S: Scheduler + Drop, D: OrderedDev + Drop>(
    alloc: Global,
    host: Host,
    capacity: u32,
    sched: S,
    dev: D,
    threads: u32,
    lines: &[EventLine],
) -> Result<SessionEnd, NoMemory>
    requires { (s : Opening) × (b : Start) × IsMadeFor S.Scheduler D.OrderedDev s b host capacity threads (S.state sched) (D.state dev) }
    ensures end { (s : Opening) (b : Start) → IsMadeFor S.Scheduler D.OrderedDev s b host capacity threads (S.state sched) (D.state dev) →
        IfOk result (IsEndOf S.steps (machine_of D.OrderedDev) (core_session s S.steps (machine_of D.OrderedDev) b (S.state sched) (D.state dev) lines.now)) }
    ensures calls { (s : Opening) (b : Start) → IsMadeFor S.Scheduler D.OrderedDev s b host capacity threads (S.state sched) (D.state dev) → IfOk result (λ r. r.host.programs ≡ b.programs) }
    ensures order { (s : Opening) (b : Start) → IsMadeFor S.Scheduler D.OrderedDev s b host capacity threads (S.state sched) (D.state dev) →
        IfOk result (EndKeepsOrder (machine_of D.OrderedDev) s (core_session s S.steps (machine_of D.OrderedDev) b (S.state sched) (D.state dev) lines.now)) }
{
    // A host is let go by a call: a drop that is written out in place is dear to prove.
    let Ok(queues) = SessionQueues::make(alloc, capacity) else {
        drop(host);
        return Err(NoMemory);
    };
    let mut running = RunningSession {
        host,
        queues,
        sched,
        dev,
    };
    let Ok(()) = running.do_lines(alloc, threads, lines) else {
        drop(running);
        return Err(NoMemory);
    };
    let RunningSession {
        host,
        queues: _,
        sched,
        dev,
    } = running;
    sessions_keep_order_to_the_medium::<S, D>(&dev);
    Ok(SessionEnd {
        host,
        sched: sched.into_trace(),
        cut: dev.cut(),
    })
}
