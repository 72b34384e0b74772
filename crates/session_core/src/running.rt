//! The run of a volume script.
ghost use Rattle.std.specs.Prelude.{◌≡◌, ◌^◌, ◌<◌, length, Some, None, IfOk};
ghost use Rattle.order_model.specs.Machine.{machine_of};
ghost use Rattle.schedulers.specs.reassign.Scheduler.{IsNewScheduler};
ghost use Rattle.mount_make.specs.Made.{made_image};
ghost use Rattle.session_grammar.specs.WellFormed.{IsWellFormed};
ghost use Rattle.session_core.specs.run.Beginning.{IsMadeFor};
ghost use Rattle.session_core.specs.declared.run.session.SessionEnd.{SessionEnd};
ghost use Rattle.session_core.specs.Core.{EndState, IsDeviceOf, IsNewFor, core_as, core_on, device_for, ended, flash_for, geometry_of, opened_host, opening_of, start_of, standings_of};
ghost use Rattle.session_core.specs.Headline.{Headline, HeadlineOn};
ghost use Rattle.session_core.specs.Report.{HasAttempts, IsCoreReport, IsReportAs, IsReportOf};
ghost use Rattle.session_core.specs.code.Cuts.{CutFacts, medium_left};
ghost use Rattle.session_core.specs.code.Ends.{session_on, EndsIn, KeepsTheOrder, IsBehind, EndFits, IsEndOfScript};

use crate::opening::{OpenedSession, open_session};
use crate::report::{CutRecord, DeviceSteps, SessionReport};
use crate::run::machine::{hosts_of_sessions_take_their_steps, parts_of_sessions_fit};
use crate::run::{
    Host, SessionEnd, calls_of_scripts_write_bytes, run_session, sessions_of_calls_on_made_images,
    sessions_on_made_images_can_be_run,
};
use blk_base::{Image, NoMemory};
use call_sessions::power_cuts::calls::{
    attempts_on_model_devices, cut_sessions_have_the_tree_of_a_prefix, cut_sessions_keep_files,
    cut_sessions_mount, cut_sessions_show_files, cut_sessions_tell_how_many, remount,
};
use call_sessions::promises::{
    answered_calls_keep_their_promises, calls_end_for_a_cause, flushes_of_sessions_are_waited_for,
    histories_follow_the_tree,
};
use device_epochs::{DeviceSetup, EpochDevice};
use flog_device::{FlogDevice, FlogSetup};
use host_answers::Standing;
use minix_layout::Geometry;
use order_model::{CutDisk, OrderedDev, Trail};
use schedulers::elevator::Elevator;
use schedulers::epochs::Sched;
use schedulers::reassign::{CAPACITY, Scheduler};
use session_grammar::SessionScript;
use stack_core::{EpochMaker, FlogMaker, Maker};
use std::alloc::Global;

// How each of so many threads stands.
fn standings(alloc: Global, host: &Host, threads: u32) -> Result<Vec<Standing>, NoMemory>
    requires { threads < 2 ^ 32 }
    ensures { IfOk result (λ v. v.items ≡ standings_of host.now threads) }
{
    let mut standings = Vec::new(alloc);
    for thread in 0..threads {
        if let Some(standing) = host.standing(thread + 1)? {
            standings.push(standing)?;
        }
    }
    Ok(standings)
}

/// The image of the volume that a script makes, and the host that it opens.
pub fn open_script(alloc: Global, script: &SessionScript) -> Result<OpenedSession, NoMemory>
    requires { IsWellFormed script.now }
    ensures image { IfOk result (λ o. o.image ≡ made_image (geometry_of script.now) script.now.journal script.now.wide) }
    ensures host { IfOk result (λ o. o.host ≡ opened_host script.now) }
{
    open_session(
        alloc,
        script.inodes,
        script.zones,
        script.journal,
        script.width,
        script.wide,
        script.header.limit,
        &script.programs,
    )
}

/// A law, which does nothing when it is called: a session of the script can run on the host that it opens, a new scheduler
/// and a new device.
pub fn check_parts<S: Scheduler, D: OrderedDev>(
    script: &SessionScript,
    host: &Host,
    sched: &S,
    dev: &D,
)
    requires script { IsWellFormed script.now }
    requires host { host.now ≡ opened_host script.now }
    requires scheduler { IsNewScheduler script.now.header.limit CAPACITY (S.steps.seen (S.state sched.now)) }
    requires device { IsNewFor script.now (D.seen (D.state dev.now)) }
    ensures { IsMadeFor S.Scheduler D.OrderedDev (opening_of script.now) (start_of script.now) host.now script.now.header.queue (length script.now.programs) (S.state sched.now) (D.state dev.now) }
{
    // These calls tell what holds of sizes, calls, and a new scheduler and device.
    let _ = Geometry::make(script.inodes, script.zones, script.width);
    calls_of_scripts_write_bytes();
    sessions_on_made_images_can_be_run::<S, D>();
    let _ = sched.can_accept();
    let _ = dev.blocks();
}

// The session of a script on this host, this scheduler and this device.
fn run_scheduled<S: Scheduler + Drop, D: OrderedDev + Drop>(
    alloc: Global,
    script: &SessionScript,
    host: Host,
    sched: S,
    dev: D,
) -> Result<SessionEnd, NoMemory>
    requires script { IsWellFormed script.now }
    requires host { host ≡ opened_host script.now }
    requires scheduler { IsNewScheduler script.now.header.limit CAPACITY (S.steps.seen (S.state sched)) }
    requires device { IsNewFor script.now (D.seen (D.state dev)) }
    ensures end { IfOk result (EndsIn (ended S.steps (machine_of D.OrderedDev) (session_on script.now S.steps (machine_of D.OrderedDev) (S.state sched) (D.state dev)))) }
    ensures order { IfOk result (KeepsTheOrder script.now (ended S.steps (machine_of D.OrderedDev) (session_on script.now S.steps (machine_of D.OrderedDev) (S.state sched) (D.state dev)))) }
    ensures behind { IfOk result (λ _. IsBehind script.now (ended S.steps (machine_of D.OrderedDev) (session_on script.now S.steps (machine_of D.OrderedDev) (S.state sched) (D.state dev)))) }
    ensures fits { IfOk result (λ _. EndFits (ended S.steps (machine_of D.OrderedDev) (session_on script.now S.steps (machine_of D.OrderedDev) (S.state sched) (D.state dev)))) }
    ensures device { IfOk result (λ _. IsDeviceOf script.now (ended S.steps (machine_of D.OrderedDev) (session_on script.now S.steps (machine_of D.OrderedDev) (S.state sched) (D.state dev))).dev) }
    ensures calls { IfOk result (λ r. r.host.programs ≡ script.now.programs) }
{
    check_parts(script, &host, &sched, &dev);
    // These calls tell what sessions keep.
    hosts_of_sessions_take_their_steps::<S, D>();
    parts_of_sessions_fit::<S, D>();
    let threads = script.programs.len() as u32;
    let lines = script.events.as_slice();
    run_session(alloc, host, script.header.queue, sched, dev, threads, lines)
}

// The session of a script on this host and this device, on the scheduler that the script names.
fn run<D: OrderedDev + Drop>(
    alloc: Global,
    script: &SessionScript,
    host: Host,
    dev: D,
) -> Result<SessionEnd, NoMemory>
    requires script { IsWellFormed script.now }
    requires host { host ≡ opened_host script.now }
    requires device { IsNewFor script.now (D.seen (D.state dev)) }
    ensures end { IfOk result (EndsIn (core_on (machine_of D.OrderedDev) script.now (D.state dev))) }
    ensures order { IfOk result (KeepsTheOrder script.now (core_on (machine_of D.OrderedDev) script.now (D.state dev))) }
    ensures behind { IfOk result (λ _. IsBehind script.now (core_on (machine_of D.OrderedDev) script.now (D.state dev))) }
    ensures fits { IfOk result (λ _. EndFits (core_on (machine_of D.OrderedDev) script.now (D.state dev))) }
    ensures device { IfOk result (λ _. IsDeviceOf script.now (core_on (machine_of D.OrderedDev) script.now (D.state dev)).dev) }
    ensures calls { IfOk result (λ r. r.host.programs ≡ script.now.programs) }
{
    let limit = script.header.limit;
    // The host is dropped by a call: a drop that is written out in place is expensive to prove.
    if script.header.elevator {
        let Ok(sched) = Elevator::make(alloc, limit) else {
            drop(host);
            return Err(NoMemory);
        };
        run_scheduled(alloc, script, host, sched, dev)
    } else {
        let Ok(sched) = Sched::make(alloc, limit) else {
            drop(host);
            return Err(NoMemory);
        };
        run_scheduled(alloc, script, host, sched, dev)
    }
}

// What the laws say of a script's session and of what a power cut leaves of it. It does nothing.
fn cut_scripts_keep_their_promises(script: &SessionScript)
    requires { IsWellFormed script.now }
    ensures { (end : EndState) (r : SessionEnd) → KeepsTheOrder script.now end r → IsBehind script.now end → CutFacts script.now end.host (medium_left r) }
{
    let _ = Geometry::make(script.inodes, script.zones, script.width);
    calls_of_scripts_write_bytes();
    cut_sessions_mount();
    cut_sessions_have_the_tree_of_a_prefix();
    cut_sessions_tell_how_many();
    cut_sessions_keep_files();
    cut_sessions_show_files();
    sessions_of_calls_on_made_images();
    answered_calls_keep_their_promises();
    calls_end_for_a_cause();
    flushes_of_sessions_are_waited_for();
    histories_follow_the_tree();
}

/// What becomes of a session of the script that has ended, on one thread or on many, and of which a power cut left this: its
/// attempts of recovery and the mount of what is left, each on a fresh device of this maker, and how its threads stood.
pub fn recover_session<M: Maker>(
    alloc: Global,
    script: &SessionScript,
    end: SessionEnd,
    maker: &mut M,
) -> Result<SessionReport, NoMemory>
    requires script { IsWellFormed script.now }
    requires end { (e : EndState) × IsEndOfScript script.now e end }
    ensures setup { M.setup maker.new ≡ M.setup maker.old }
    ensures host { IfOk result (λ r. r.host ≡ end.host) }
    ensures report { (e : EndState) → IsEndOfScript script.now e end → IfOk result (IsReportOf script.now e) }
    ensures attempts { IfOk result (HasAttempts (machine_of M.Dev.OrderedDev) (λ i. M.Dev.OrderedDev.state (M.fresh_dev (M.setup maker.old) i)) script.now) }
    ensures headline { (e : EndState) → IsEndOfScript script.now e end → IfOk result (HeadlineOn script.now e) }
{
    // This call tells what a power cut leaves of the session.
    cut_scripts_keep_their_promises(script);
    let SessionEnd { host, sched, cut } = end;
    // By a call, as in `run`.
    let Ok(standings) = standings(alloc, &host, script.programs.len() as u32) else {
        drop(host);
        return Err(NoMemory);
    };
    // What the host held is let go before the mount, which needs memory of its own.
    let host = host.into_trace();
    let CutDisk {
        image,
        origins,
        trace,
    } = cut;
    let trace = DeviceSteps::of(trace);
    let left = Trail::of_image(&image);
    let recovers = script.recovers.as_slice();
    let Ok(last) = remount(alloc, maker, script.zones.into(), 1, image, recovers) else {
        drop(host);
        return Err(NoMemory);
    };
    Ok(SessionReport {
        host,
        sched,
        cut: CutRecord {
            image: left,
            origins,
            trace,
        },
        attempts: last.attempts,
        volume: last.volume,
        image: last.image,
        found: last.found,
        standings,
    })
}

// A script on this host and this device: the session, the power cut, the attempts and the mount.
fn run_opened<M: Maker>(
    alloc: Global,
    script: &SessionScript,
    host: Host,
    dev: M::Dev,
    maker: &mut M,
) -> Result<SessionReport, NoMemory>
    requires script { IsWellFormed script.now }
    requires host { host ≡ opened_host script.now }
    requires device { IsNewFor script.now (M.Dev.OrderedDev.seen (M.Dev.OrderedDev.state dev)) }
    ensures setup { M.setup maker.new ≡ M.setup maker.old }
    ensures report { IfOk result (IsReportOf script.now (core_on (machine_of M.Dev.OrderedDev) script.now (M.Dev.OrderedDev.state dev))) }
    ensures attempts { IfOk result (HasAttempts (machine_of M.Dev.OrderedDev) (λ i. M.Dev.OrderedDev.state (M.fresh_dev (M.setup maker.old) i)) script.now) }
    ensures headline { IfOk result (HeadlineOn script.now (core_on (machine_of M.Dev.OrderedDev) script.now (M.Dev.OrderedDev.state dev))) }
{
    let end = run(alloc, script, host, dev)?;
    recover_session(alloc, script, end, maker)
}

/// Runs a volume script on this device, cuts its power, makes the attempts of recovery that the script asks for, and mounts
/// what is left, each on a fresh device of this maker.
pub fn run_on<M: Maker>(
    alloc: Global,
    script: &SessionScript,
    dev: M::Dev,
    maker: &mut M,
) -> Result<SessionReport, NoMemory>
    requires script { IsWellFormed script.now }
    requires device { IsNewFor script.now (M.Dev.OrderedDev.seen (M.Dev.OrderedDev.state dev)) }
    ensures setup { M.setup maker.new ≡ M.setup maker.old }
    ensures report { IfOk result (IsReportOf script.now (core_on (machine_of M.Dev.OrderedDev) script.now (M.Dev.OrderedDev.state dev))) }
    ensures attempts { IfOk result (HasAttempts (machine_of M.Dev.OrderedDev) (λ i. M.Dev.OrderedDev.state (M.fresh_dev (M.setup maker.old) i)) script.now) }
    ensures headline { IfOk result (HeadlineOn script.now (core_on (machine_of M.Dev.OrderedDev) script.now (M.Dev.OrderedDev.state dev))) }
{
    let OpenedSession { host, .. } = open_script(alloc, script)?;
    run_opened(alloc, script, host, dev, maker)
}

/// The model device that a script says, over the image of its volume.
pub fn model_device(
    alloc: Global,
    script: &SessionScript,
    image: Image,
) -> Result<EpochDevice, NoMemory>
    requires script { IsWellFormed script.now }
    requires image { image ≡ made_image (geometry_of script.now) script.now.journal script.now.wide }
    ensures { IfOk result (λ d. d ≡ device_for script.now) }
{
    let header = &script.header;
    let setup = DeviceSetup {
        depth: header.depth,
        limit: header.limit,
        fail_at: header.fail,
        bad_read: None,
        cut_at: header.cut,
    };
    EpochDevice::make(alloc, image, setup)
}

/// The flash log of so many segments that a script says, over the image of its volume.
pub fn flash_device(
    alloc: Global,
    script: &SessionScript,
    segments: u32,
    image: Image,
) -> Result<FlogDevice, NoMemory>
    requires script { IsWellFormed script.now }
    requires segments { script.now.header.flash ≡ Some segments }
    requires image { image ≡ made_image (geometry_of script.now) script.now.journal script.now.wide }
    ensures { IfOk result (λ d. d ≡ flash_for script.now segments) }
{
    let header = &script.header;
    let setup = FlogSetup {
        depth: header.depth,
        limit: header.limit,
        segments,
        fail_at: header.fail,
        cut_at: header.cut,
    };
    FlogDevice::make(alloc, image, setup)
}

// A script on the model device that it says, with model devices of the same depth for its recovery.
fn run_on_model(alloc: Global, script: &SessionScript) -> Result<SessionReport, NoMemory>
    requires { IsWellFormed script.now }
    ensures report { IfOk result (IsReportAs script.now None) }
    ensures headline { IfOk result (HeadlineOn script.now (core_as script.now None)) }
{
    let OpenedSession { image, host } = open_script(alloc, script)?;
    let dev = model_device(alloc, script, image)?;
    // This call tells what attempts on model devices are.
    attempts_on_model_devices();
    run_opened(
        alloc,
        script,
        host,
        dev,
        &mut EpochMaker::make(script.header.depth),
    )
}

// A script on the flash log that it says, with flash logs of as many segments and the same depth for its recovery.
fn run_on_flash(
    alloc: Global,
    script: &SessionScript,
    segments: u32,
) -> Result<SessionReport, NoMemory>
    requires script { IsWellFormed script.now }
    requires segments { script.now.header.flash ≡ Some segments }
    ensures report { IfOk result (IsReportAs script.now (Some segments)) }
    ensures headline { IfOk result (HeadlineOn script.now (core_as script.now (Some segments))) }
{
    let OpenedSession { image, host } = open_script(alloc, script)?;
    let dev = flash_device(alloc, script, segments, image)?;
    run_opened(
        alloc,
        script,
        host,
        dev,
        &mut FlogMaker::make(script.header.depth, segments),
    )
}

/// Runs a volume script on the device that it says, a flash log or the model device, and recovers on devices of the same
/// kind and depth.
pub fn core_run(alloc: Global, script: &SessionScript) -> Result<SessionReport, NoMemory>
    requires { IsWellFormed script.now }
    ensures core { IfOk result (IsCoreReport script.now) }
    ensures headline { IfOk result (Headline script.now) }
{
    match script.header.flash {
        None => run_on_model(alloc, script),
        Some(segments) => run_on_flash(alloc, script, segments),
    }
}
