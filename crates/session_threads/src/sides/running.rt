//! The workers, the three locks, and how the sides come together behind the join.
ghost use Rattle.std.specs.Prelude.{◌≡◌, [], false, replicate, IfOk};
ghost use denote.Param.Send.{IsSend, IsSync};
ghost use Rattle.order_model.specs.Device.{IsUntouched};
ghost use Rattle.order_model.specs.Machine.{machine_of};
ghost use Rattle.schedulers.specs.reassign.Scheduler.{IsNewScheduler};
ghost use Rattle.schedulers.specs.dispatch.Opened.{ArePassesOf, AreNew, AreNamed};
ghost use Rattle.host_machine.specs.runs.laws.Written.{AreWritten};
ghost use Rattle.minix_host.specs.Runs.{IsOpenedVolume, HasEmptyJournal};
ghost use Rattle.call_sessions.specs.Sessions.{WriteBytes};
ghost use Rattle.session_core.specs.run.CodeHosts.{IsInSession};
ghost use Rattle.session_threads.specs.sides.Ended.{HasEnded};
ghost use Rattle.session_threads.specs.sides.Sides.{AreSides};

use crate::sides::ending::has_ended;
use crate::sides::flags::Flags;
use crate::sides::gate::Gate;
use crate::sides::host_side::HostSide;
use crate::sides::loops::{
    accept_loop, caller_loop, commit_loop, dispatch_loop, flush_loop, persist_loop, transfer_loop,
};
use crate::sides::names::SessionNames;
use crate::sides::parts::JoinedParts;
use blk_base::NoMemory;
use host_core::Host;
use order_model::OrderedDev;
use schedulers::dispatch::{Ends, Passes, Queues, close, ends};
use schedulers::reassign::{CAPACITY, Scheduler};
use std::alloc::Global;
use std::sync::{Mutex, Wait};
use std::thread;
use std::thread::{Builder, Threads};
use thread_sides::{DeviceSide, Effects, IdFlags, OpensDevice, OpensScheduler, SchedSide};

// So many callers, counted from 1, and the six other loops.
fn workers(alloc: Global, callers: u32) -> Result<Vec<u32>, NoMemory> {
    let mut workers = Vec::new(alloc);
    for before in 0..callers {
        workers.push(before + 1)?;
    }
    for who in 101..107 {
        workers.push(who)?;
    }
    Ok(workers)
}

// The loop of one worker. The seed of its generator is the script's and its own number.
fn work<
    S: Scheduler + OpensScheduler,
    D: OrderedDev + OpensDevice,
    N: SessionNames,
    H: Wait,
    G: Gate,
>(
    rt: &H,
    alloc: Global,
    gate: &G,
    flags: &Flags,
    seed: u64,
    host: &Mutex<HostSide<'_, N, H>>,
    sched: &Mutex<SchedSide<'_, S, N, H>>,
    dev: &Mutex<DeviceSide<'_, D, N, H>>,
    who: u32,
) {
    let seed = seed.wrapping_add(u64::from(who));
    match who {
        0 => {}
        101 => commit_loop(rt, alloc, host, flags, gate),
        102 => flush_loop(rt, host, flags, gate, seed),
        103 => accept_loop(rt, sched, flags, gate),
        104 => dispatch_loop(rt, sched, flags, gate, seed),
        105 => transfer_loop(rt, dev, flags, gate, seed),
        106 => persist_loop(rt, dev, flags, gate, seed),
        thread => caller_loop(rt, alloc, host, flags, gate, thread),
    }
}

// Each worker in a thread of its own, until all have ended. Where a thread is refused, all loops are told, so that they end.
fn run_workers<
    S: Scheduler + OpensScheduler + Drop + Send,
    D: OrderedDev + OpensDevice + Drop + Send,
    N: SessionNames + Send + Sync,
    H: Threads + Wait + Sync,
    G: Gate + Sync,
>(
    rt: &H,
    alloc: Global,
    gate: &G,
    flags: &Flags,
    seed: u64,
    host: &Mutex<HostSide<'_, N, H>>,
    sched: &Mutex<SchedSide<'_, S, N, H>>,
    dev: &Mutex<DeviceSide<'_, D, N, H>>,
    workers: &[u32],
) {
    thread::scope(
        thread::scope_env(),
        rt,
        |scope|
            requires { IsSync H.row × IsSync G.row × IsSend S.row × IsSend D.row × IsSend N.row × IsSync N.row }
        {
            for who in workers {
                let who = *who;
                let started = Builder::new().stack_size(gate.stack(who)).spawn_scoped(
                    scope,
                    move || work(rt, alloc, gate, flags, seed, host, sched, dev, who),
                );
                if started.is_err() {
                    flags.raise_refused();
                    break;
                }
            }
        },
    );
}

// Brings the sides together once their workers have ended.
fn joined<
    S: Scheduler + OpensScheduler,
    D: OrderedDev + OpensDevice,
    N: SessionNames,
    H: Wait + Sync,
>(
    host: HostSide<'_, N, H>,
    sched: SchedSide<'_, S, N, H>,
    dev: DeviceSide<'_, D, N, H>,
) -> JoinedParts<S, D>
    ensures host { result.host ≡ host.entry.host }
    ensures sched { S.steps.seen (S.state result.sched) ≡ sched.entry.seen }
    ensures dev { D.seen (D.state result.dev) ≡ dev.entry.seen }
    ensures sides { AreSides N.opening N.start S.steps (S.state (S.opened N.setup.limit)) (machine_of D.OrderedDev) (D.state (D.opened_over N.image N.setup)) result.effects result.host (S.state result.sched) (D.state result.dev) }
{
    let (host, host_events, submit, completion) = host.into_parts();
    let (sched, sched_events, request, send) = sched.into_parts();
    let (dev, device_events, command, post) = dev.into_parts();
    close(Ends {
        submit,
        request,
        send,
        command,
        post,
        completion,
    });
    JoinedParts {
        host,
        sched,
        dev,
        effects: Effects {
            host: host_events,
            sched: sched_events,
            dev: device_events,
        },
    }
}

/// Runs the loops of a session over three locks, each in a thread of its own, until the session has ended, and brings the
/// sides together. Loops that all ended before the session has are started again over the same parts. A thread that is refused is
/// want of memory: loops that have begun end then, as they do where one of them is refused memory.
pub fn run_sides<
    S: Scheduler + OpensScheduler + Drop + Send,
    D: OrderedDev + OpensDevice + Drop + Send,
    N: SessionNames + Send + Sync,
    H: Threads + Wait + Sync,
    G: Gate + Sync,
>(
    rt: &H,
    alloc: Global,
    gate: &G,
    callers: u32,
    seed: u64,
    cut: Option<u64>,
    queues: &Queues,
    passes: Passes,
    host: Host,
    sched: S,
    dev: D,
    sched_ids: IdFlags,
    device_ids: IdFlags,
) -> Result<JoinedParts<S, D>, NoMemory>
    requires passes { ArePassesOf queues.now passes }
    requires fresh { AreNew passes }
    requires names { AreNamed N.submission N.dispatch N.completion passes }
    requires written { AreWritten N.opening.format N.opening.writers }
    requires opened { IsOpenedVolume N.opening N.start.volume }
    requires journal { HasEmptyJournal N.opening N.start.ring N.start.limit }
    requires bytes { WriteBytes N.start.programs }
    requires host { IsInSession N.opening N.start.volume N.start.ring N.start.limit N.start.programs [] host }
    requires sched { S.state sched ≡ S.state (S.opened N.setup.limit) }
    requires new_sched { IsNewScheduler N.setup.limit CAPACITY (S.steps.seen (S.state sched)) }
    requires sched_ids { sched_ids ≡ replicate N.setup.limit false }
    requires device { D.state dev ≡ D.state (D.opened_over N.image N.setup) }
    requires new_device { IsUntouched (D.seen (D.state dev)) }
    requires device_ids { device_ids ≡ replicate (D.seen (D.state dev)).limit false }
    ensures ended { IfOk result (λ r. HasEnded cut r.host.host (S.steps.seen (S.state r.sched)) (D.seen (D.state r.dev))) }
    ensures sides { IfOk result (λ r. AreSides N.opening N.start S.steps (S.state (S.opened N.setup.limit)) (machine_of D.OrderedDev) (D.state (D.opened_over N.image N.setup)) r.effects r.host (S.state r.sched) (D.state r.dev)) }
{
    let Ok(workers) = workers(alloc, callers) else {
        drop(host);
        drop(sched);
        drop(dev);
        return Err(NoMemory);
    };
    let Ends {
        submit,
        request,
        send,
        command,
        post,
        completion,
    } = ends::<N, H>(rt, queues, passes);
    let mut host = HostSide::<N, H>::open(alloc, host, submit, completion);
    let mut sched = SchedSide::<S, N, H>::open(alloc, sched, sched_ids, request, send);
    let mut dev = DeviceSide::<D, N, H>::open(alloc, dev, device_ids, command, post);
    let mut is_refused = false;
    for _ in rt.forever() {
        let flags = Flags::lowered();
        let host_lock = Mutex::new(host);
        let sched_lock = Mutex::new(sched);
        let dev_lock = Mutex::new(dev);
        run_workers(
            rt,
            alloc,
            gate,
            &flags,
            seed,
            &host_lock,
            &sched_lock,
            &dev_lock,
            workers.as_slice(),
        );
        host = host_lock.into_inner();
        sched = sched_lock.into_inner();
        dev = dev_lock.into_inner();
        is_refused = flags.is_refused();
        if is_refused || has_ended(cut, host.host(), sched.sched(), dev.dev()) {
            break;
        }
    }
    if is_refused || !has_ended(cut, host.host(), sched.sched(), dev.dev()) {
        drop(joined(host, sched, dev));
        return Err(NoMemory);
    }
    Ok(joined(host, sched, dev))
}
