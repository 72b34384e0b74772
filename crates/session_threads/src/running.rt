//! The run of a volume script in threads.
ghost use Rattle.std.specs.Prelude.{◌≡◌, ◌+◌, ◌≤◌, [], Some, None, false, length, replicate, IfOk};
ghost use Rattle.order_model.specs.Device.{IsUntouched};
ghost use Rattle.order_model.specs.Machine.{machine_of};
ghost use Rattle.schedulers.specs.reassign.Scheduler.{IsNewScheduler};
ghost use Rattle.schedulers.specs.dispatch.Opened.{ArePassesOf, AreNew, AreNamed, HaveCapacity};
ghost use Rattle.mount_make.specs.Made.{made_image};
ghost use Rattle.host_machine.specs.runs.laws.Written.{AreWritten};
ghost use Rattle.minix_host.specs.Runs.{IsOpenedVolume, HasEmptyJournal};
ghost use Rattle.call_sessions.specs.Sessions.{WriteBytes};
ghost use Rattle.session_grammar.specs.WellFormed.{IsWellFormed};
ghost use Rattle.session_core.specs.run.CodeHosts.{IsInSession};
ghost use Rattle.session_core.specs.Core.{IsNewFor, geometry_of, opened_host, opening_of, start_of};
ghost use Rattle.session_threads.specs.sides.Ended.{HasEnded};
ghost use Rattle.session_threads.specs.sides.Sides.{AreSides};
ghost use Rattle.session_threads.specs.Ran.{HasRoom, IsThreadsReport, LeftBy, LeftWith, part_setup};

use crate::report::{ThreadsEnd, ThreadsReport};
use crate::sides::{Gate, JoinedParts, SessionNames, run_sides};
use blk_base::NoMemory;
use call_sessions::power_cuts::calls::attempts_on_model_devices;
use order_model::{OrderedDev, quiet_devices_keep_all};
use schedulers::dispatch::{Passes, Queues, make_queues};
use schedulers::elevator::Elevator;
use schedulers::epochs::Sched;
use schedulers::reassign::{CAPACITY, Scheduler};
use session_core::opening::OpenedSession;
use session_core::run::parts::{
    ended_threads_did_their_programs, hosts_number_their_requests, joined_parts_keep_the_order,
    parts_are_lawful,
};
use session_core::run::{Host, SessionEnd, hosts_of_code_stay_in_session};
use session_core::{check_parts, flash_device, model_device, open_script, recover_session};
use session_grammar::SessionScript;
use stack_core::{EpochMaker, FlogMaker};
use std::alloc::Global;
use std::marker::Brand;
use std::sync::Wait;
use std::thread::Threads;
use thread_sides::{IdFlags, OpensDevice, OpensScheduler};

// What the sides of a session need besides their parts: the queues between them, and a flag for each id.
struct SharedRoom {
    queues: Queues,
    passes: Passes,
    sched_ids: IdFlags,
    device_ids: IdFlags,
}

// All of it, for a session of this script.
fn make_room<H: Wait + Sync>(
    rt: &H,
    alloc: Global,
    script: &SessionScript,
) -> Result<SharedRoom, NoMemory>
    requires { IsWellFormed script.now }
    ensures { IfOk result (HasRoom script.now.header.queue script.now.header.limit) }
{
    let limit = script.header.limit as usize;
    let (queues, passes) = make_queues(rt, alloc, script.header.queue)?;
    Ok(SharedRoom {
        queues,
        passes,
        sched_ids: IdFlags::make(alloc, limit)?,
        device_ids: IdFlags::make(alloc, limit)?,
    })
}

// Cuts the power of a session's parts once it has ended.
fn end_parts<S: Scheduler + OpensScheduler, D: OrderedDev + OpensDevice>(
    script: &SessionScript,
    parts: JoinedParts<S, D>,
) -> ThreadsEnd
    requires script { IsWellFormed script.now }
    requires sides { AreSides (opening_of script.now) (start_of script.now) S.steps (S.state (S.opened script.now.header.limit)) (machine_of D.OrderedDev) (D.state (D.opened_over (opening_of script.now).image (part_setup script.now))) parts.effects parts.host (S.state parts.sched) (D.state parts.dev) }
    requires ended { HasEnded script.now.header.cut parts.host.host (S.steps.seen (S.state parts.sched)) (D.seen (D.state parts.dev)) }
    requires blocks { (geometry_of script.now).zones + (start_of script.now).ring.places.past ≤ length (opening_of script.now).image }
    requires device { IsNewFor script.now (D.seen (D.state (D.opened_over (opening_of script.now).image (part_setup script.now)))) }
    ensures { LeftBy S.steps (machine_of D.OrderedDev) script.now (S.state (S.opened script.now.header.limit)) (D.state (D.opened_over (opening_of script.now).image (part_setup script.now))) result }
{
    // These calls tell what holds of parts that fit, of threads that have ended, and of devices that are quiet.
    parts_are_lawful::<S, D>();
    hosts_number_their_requests();
    hosts_of_code_stay_in_session();
    joined_parts_keep_the_order();
    quiet_devices_keep_all();
    ended_threads_did_their_programs();
    let _ = parts.sched.can_accept();
    let _ = parts.dev.blocks();
    let JoinedParts {
        host,
        sched,
        dev,
        effects,
    } = parts;
    ThreadsEnd {
        end: SessionEnd {
            host,
            sched: sched.into_trace(),
            cut: dev.cut(),
        },
        effects,
    }
}

// The loops of a session of this script, whose sides have the name N.
fn run_named<
    S: Scheduler + OpensScheduler + Drop + Send,
    D: OrderedDev + OpensDevice + Drop + Send,
    N: SessionNames + Send + Sync,
    H: Threads + Wait + Sync,
    G: Gate + Sync,
>(
    rt: &H,
    alloc: Global,
    gate: &G,
    script: &SessionScript,
    queues: &Queues,
    passes: Passes,
    host: Host,
    sched: S,
    dev: D,
    sched_ids: IdFlags,
    device_ids: IdFlags,
) -> Result<JoinedParts<S, D>, NoMemory>
    requires script { IsWellFormed script.now }
    requires capacity { HaveCapacity script.now.header.queue queues.now }
    requires passes { ArePassesOf queues.now passes }
    requires fresh { AreNew passes }
    requires names { AreNamed N.submission N.dispatch N.completion passes }
    requires written { AreWritten N.opening.format N.opening.writers }
    requires opened { IsOpenedVolume N.opening N.start.volume }
    requires journal { HasEmptyJournal N.opening N.start.ring N.start.limit }
    requires bytes { WriteBytes N.start.programs }
    requires host { IsInSession N.opening N.start.volume N.start.ring N.start.limit N.start.programs [] host }
    requires sched { S.state sched ≡ S.state (S.opened N.setup.limit) }
    requires new_sched { IsNewScheduler N.setup.limit CAPACITY (S.steps.seen (S.state sched)) }
    requires sched_ids { sched_ids ≡ replicate N.setup.limit false }
    requires device { D.state dev ≡ D.state (D.opened_over N.image N.setup) }
    requires new_device { IsUntouched (D.seen (D.state dev)) }
    requires device_ids { device_ids ≡ replicate (D.seen (D.state dev)).limit false }
    ensures ended { IfOk result (λ r. HasEnded script.now.header.cut r.host.host (S.steps.seen (S.state r.sched)) (D.seen (D.state r.dev))) }
    ensures sides { IfOk result (λ r. AreSides N.opening N.start S.steps (S.state (S.opened N.setup.limit)) (machine_of D.OrderedDev) (D.state (D.opened_over N.image N.setup)) r.effects r.host (S.state r.sched) (D.state r.dev)) }
{
    let callers = script.programs.len() as u32;
    let header = &script.header;
    run_sides::<S, D, N, H, G>(
        rt,
        alloc,
        gate,
        callers,
        header.seed,
        header.cut,
        queues,
        passes,
        host,
        sched,
        dev,
        sched_ids,
        device_ids,
    )
}

// A session of this script in threads, on this host, this scheduler and this device.
fn run_parts<
    S: Scheduler + OpensScheduler + Drop + Send,
    D: OrderedDev + OpensDevice + Drop + Send,
    H: Threads + Wait + Sync,
    G: Gate + Sync,
>(
    rt: &H,
    alloc: Global,
    gate: &G,
    script: &SessionScript,
    host: Host,
    sched: S,
    dev: D,
) -> Result<ThreadsEnd, NoMemory>
    requires script { IsWellFormed script.now }
    requires host { host ≡ opened_host script.now }
    requires sched { S.state sched ≡ S.state (S.opened script.now.header.limit) }
    requires new_sched { IsNewScheduler script.now.header.limit CAPACITY (S.steps.seen (S.state sched)) }
    requires device { D.state dev ≡ D.state (D.opened_over (opening_of script.now).image (part_setup script.now)) }
    requires new_device { IsNewFor script.now (D.seen (D.state dev)) }
    requires ids { (D.seen (D.state dev)).limit ≡ script.now.header.limit }
    ensures { IfOk result (LeftBy S.steps (machine_of D.OrderedDev) script.now (S.state (S.opened script.now.header.limit)) (D.state (D.opened_over (opening_of script.now).image (part_setup script.now)))) }
{
    check_parts(script, &host, &sched, &dev);
    // A host is let go by a call: a drop that is written out in place is dear to prove.
    let Ok(room) = make_room(rt, alloc, script) else {
        drop(host);
        drop(sched);
        drop(dev);
        return Err(NoMemory);
    };
    let SharedRoom {
        queues,
        passes,
        sched_ids,
        device_ids,
    } = room;
    let parts = run_named::<S, D, Brand, H, G>(
        rt, alloc, gate, script, &queues, passes, host, sched, dev, sched_ids, device_ids,
    )?;
    Ok(end_parts(script, parts))
}

// A session of this script in threads, on this host and this device, and on the scheduler that the script names.
fn run<D: OrderedDev + OpensDevice + Drop + Send, H: Threads + Wait + Sync, G: Gate + Sync>(
    rt: &H,
    alloc: Global,
    gate: &G,
    script: &SessionScript,
    host: Host,
    dev: D,
) -> Result<ThreadsEnd, NoMemory>
    requires script { IsWellFormed script.now }
    requires host { host ≡ opened_host script.now }
    requires device { D.state dev ≡ D.state (D.opened_over (opening_of script.now).image (part_setup script.now)) }
    requires new_device { IsNewFor script.now (D.seen (D.state dev)) }
    requires ids { (D.seen (D.state dev)).limit ≡ script.now.header.limit }
    ensures { IfOk result (LeftWith (machine_of D.OrderedDev) script.now (D.state (D.opened_over (opening_of script.now).image (part_setup script.now))) script.now.header.elevator) }
{
    let limit = script.header.limit;
    if script.header.elevator {
        let Ok(sched) = Elevator::make(alloc, limit) else {
            drop(host);
            drop(dev);
            return Err(NoMemory);
        };
        run_parts(rt, alloc, gate, script, host, sched, dev)
    } else {
        let Ok(sched) = Sched::make(alloc, limit) else {
            drop(host);
            drop(dev);
            return Err(NoMemory);
        };
        run_parts(rt, alloc, gate, script, host, sched, dev)
    }
}

// In threads on the model device that the script says, with model devices of the same depth for its recovery.
fn run_on_model<H: Threads + Wait + Sync, G: Gate + Sync>(
    rt: &H,
    alloc: Global,
    script: &SessionScript,
    gate: &G,
) -> Result<ThreadsReport, NoMemory>
    requires script { IsWellFormed script.now }
    ensures { IfOk result (IsThreadsReport script.now None) }
{
    let OpenedSession { image, host } = open_script(alloc, script)?;
    let Ok(dev) = model_device(alloc, script, image) else {
        drop(host);
        return Err(NoMemory);
    };
    let ThreadsEnd { end, effects } = run(rt, alloc, gate, script, host, dev)?;
    // This call tells what attempts on model devices are.
    attempts_on_model_devices();
    let mut maker = EpochMaker::make(script.header.depth);
    let Ok(report) = recover_session(alloc, script, end, &mut maker) else {
        drop(effects);
        return Err(NoMemory);
    };
    Ok(ThreadsReport { report, effects })
}

// In threads on the flash log that the script says, with flash logs of as many segments and the same depth for its recovery.
fn run_on_flash<H: Threads + Wait + Sync, G: Gate + Sync>(
    rt: &H,
    alloc: Global,
    script: &SessionScript,
    segments: u32,
    gate: &G,
) -> Result<ThreadsReport, NoMemory>
    requires script { IsWellFormed script.now }
    requires segments { script.now.header.flash ≡ Some segments }
    ensures { IfOk result (IsThreadsReport script.now (Some segments)) }
{
    let OpenedSession { image, host } = open_script(alloc, script)?;
    let Ok(dev) = flash_device(alloc, script, segments, image) else {
        drop(host);
        return Err(NoMemory);
    };
    let ThreadsEnd { end, effects } = run(rt, alloc, gate, script, host, dev)?;
    let mut maker = FlogMaker::make(script.header.depth, segments);
    let Ok(report) = recover_session(alloc, script, end, &mut maker) else {
        drop(effects);
        return Err(NoMemory);
    };
    Ok(ThreadsReport { report, effects })
}

/// Runs the programs of a volume script in threads, each caller in one of its own, on the scheduler and the device that the
/// script says. Its event lines are not used. The workers' numbers, by which `gate` knows them, are said at `Gate`.
///
/// It returns once the session has ended, by itself or by the power cut or the failure of the script; that it ends is not
/// promised, since no order among threads is.
pub fn run_threads<H: Threads + Wait + Sync, G: Gate + Sync>(
    rt: &H,
    alloc: Global,
    script: &SessionScript,
    gate: &G,
) -> Result<ThreadsReport, NoMemory>
    requires { IsWellFormed script.now }
    ensures { IfOk result (IsThreadsReport script.now script.now.header.flash) }
{
    match script.header.flash {
        None => run_on_model(rt, alloc, script, gate),
        Some(segments) => run_on_flash(rt, alloc, script, segments, gate),
    }
}
