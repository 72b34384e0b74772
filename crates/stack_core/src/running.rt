//! The run of a script on a scheduler and a device.
ghost use Rattle.std.specs.Prelude.{◌≡◌, ◌++◌, ◌≤◌, false, [], length, IfOk, Some, None};
ghost use Rattle.blk_base.specs.Image.{zeros};
ghost use Rattle.order_model.specs.Machine.{machine_of};
ghost use Rattle.script_grammar.specs.Grammar.{IsRunnable, blocks_of};
ghost use Rattle.schedulers.specs.reassign.Scheduler.{IsNewScheduler};
ghost use Rattle.stack_core.specs.RequestPath.{PathFits, opened_path, scheduled_count};
ghost use Rattle.stack_core.specs.Core.{RunState, happens, times, happens_line, run_lines, run_of, ended, end_on, opened_for, flash_opened_for};
ghost use Rattle.stack_core.specs.Report.{IsReportOf, IsCoreReport, PartsFit, Headline};
ghost use Rattle.stack_core.specs.Headline.{KeepsOrder};

use crate::report::Report;
use crate::request_path::RequestPath;
use blk_base::{Image, NoMemory};
use device_epochs::{DeviceSetup, EpochDevice};
use flog_device::{FlogDevice, FlogSetup};
use order_model::{OrderedDev, keeps_order_to_the_medium};
use schedulers::elevator::Elevator;
use schedulers::epochs::Sched;
use schedulers::reassign::{CAPACITY, Scheduler};
use script_grammar::{CoreEvent, EventLine, EventWord, Form, RequestList, Script};
use std::alloc::Global;

// One event. It answers false where nothing was done.
fn do_event<S: Scheduler, D: OrderedDev>(
    path: &mut RequestPath,
    sched: &mut S,
    dev: &mut D,
    requests: &RequestList,
    event: CoreEvent,
) -> bool
    requires valid { D.valid (D.state dev.old) }
    requires scheduler { S.valid (S.state sched.old) }
    requires path { PathFits path.old (S.steps.seen (S.state sched.old)) requests.now (D.seen (D.state dev.old)) }
    ensures step { record { path = path.new; sched = S.state sched.new; dev = D.state dev.new } ≡ happens S.steps (machine_of D.OrderedDev) requests.now (record { path = path.old; sched = S.state sched.old; dev = D.state dev.old }) event }
    ensures valid { D.valid (D.state dev.new) }
    ensures scheduler { S.valid (S.state sched.new) }
    ensures base { (D.seen (D.state dev.new)).base ≡ (D.seen (D.state dev.old)).base }
    ensures path { PathFits path.new (S.steps.seen (S.state sched.new)) requests.now (D.seen (D.state dev.new)) }
    ensures idle { result ≡ false → (path.new ≡ path.old) × (S.state sched.new ≡ S.state sched.old) × (D.state dev.new ≡ D.state dev.old) }
{
    match event {
        CoreEvent::Receive => receive_next(path, sched, dev, requests),
        CoreEvent::Transfer(pick) => dev.transfer(pick),
        CoreEvent::Persist(pick) => dev.persist(pick),
        CoreEvent::Submit | CoreEvent::Accept | CoreEvent::Dispatch(_) => path.step(
            sched, requests, event,
        ),
    }
}

// The next command goes to the device, where there is one and there is room. Otherwise it answers false.
fn receive_next<S: Scheduler, D: OrderedDev>(
    path: &mut RequestPath,
    sched: &mut S,
    dev: &mut D,
    requests: &RequestList,
) -> bool
    requires valid { D.valid (D.state dev.old) }
    requires scheduler { S.valid (S.state sched.old) }
    requires path { PathFits path.old (S.steps.seen (S.state sched.old)) requests.now (D.seen (D.state dev.old)) }
    ensures step { record { path = path.new; sched = S.state sched.new; dev = D.state dev.new } ≡ happens S.steps (machine_of D.OrderedDev) requests.now (record { path = path.old; sched = S.state sched.old; dev = D.state dev.old }) CoreEvent.Receive }
    ensures valid { D.valid (D.state dev.new) }
    ensures scheduler { S.valid (S.state sched.new) }
    ensures base { (D.seen (D.state dev.new)).base ≡ (D.seen (D.state dev.old)).base }
    ensures path { PathFits path.new (S.steps.seen (S.state sched.new)) requests.now (D.seen (D.state dev.new)) }
    ensures idle { result ≡ false → (path.new ≡ path.old) × (S.state sched.new ≡ S.state sched.old) × (D.state dev.new ≡ D.state dev.old) }
{
    path.hand_to(dev, requests)
}

// One event, so many times. It ends where the event does nothing: that does nothing again.
fn repeat_event<S: Scheduler, D: OrderedDev>(
    path: &mut RequestPath,
    sched: &mut S,
    dev: &mut D,
    requests: &RequestList,
    event: CoreEvent,
    count: u32,
)
    requires valid { D.valid (D.state dev.old) }
    requires scheduler { S.valid (S.state sched.old) }
    requires path { PathFits path.old (S.steps.seen (S.state sched.old)) requests.now (D.seen (D.state dev.old)) }
    ensures step { record { path = path.new; sched = S.state sched.new; dev = D.state dev.new } ≡ times count (λ s. happens S.steps (machine_of D.OrderedDev) requests.now s event) (record { path = path.old; sched = S.state sched.old; dev = D.state dev.old }) }
    ensures valid { D.valid (D.state dev.new) }
    ensures scheduler { S.valid (S.state sched.new) }
    ensures base { (D.seen (D.state dev.new)).base ≡ (D.seen (D.state dev.old)).base }
    ensures path { PathFits path.new (S.steps.seen (S.state sched.new)) requests.now (D.seen (D.state dev.new)) }
{
    for i in 0..count {
        if !do_event(path, sched, dev, requests, event) {
            return;
        }
    }
}

// An event line, as often as it says.
fn do_line<S: Scheduler, D: OrderedDev>(
    path: &mut RequestPath,
    sched: &mut S,
    dev: &mut D,
    requests: &RequestList,
    line: EventLine,
)
    requires valid { D.valid (D.state dev.old) }
    requires scheduler { S.valid (S.state sched.old) }
    requires path { PathFits path.old (S.steps.seen (S.state sched.old)) requests.now (D.seen (D.state dev.old)) }
    ensures step { record { path = path.new; sched = S.state sched.new; dev = D.state dev.new } ≡ happens_line S.steps (machine_of D.OrderedDev) requests.now (record { path = path.old; sched = S.state sched.old; dev = D.state dev.old }) line }
    ensures valid { D.valid (D.state dev.new) }
    ensures scheduler { S.valid (S.state sched.new) }
    ensures base { (D.seen (D.state dev.new)).base ≡ (D.seen (D.state dev.old)).base }
    ensures path { PathFits path.new (S.steps.seen (S.state sched.new)) requests.now (D.seen (D.state dev.new)) }
{
    match line.what {
        EventWord::One(event) => repeat_event(path, sched, dev, requests, event, line.count),
    }
}

// All event lines, one after the other.
fn do_lines<S: Scheduler, D: OrderedDev>(
    path: &mut RequestPath,
    sched: &mut S,
    dev: &mut D,
    requests: &RequestList,
    lines: &[EventLine],
)
    requires valid { D.valid (D.state dev.old) }
    requires scheduler { S.valid (S.state sched.old) }
    requires path { PathFits path.old (S.steps.seen (S.state sched.old)) requests.now (D.seen (D.state dev.old)) }
    ensures run { record { path = path.new; sched = S.state sched.new; dev = D.state dev.new } ≡ run_lines S.steps (machine_of D.OrderedDev) requests.now (record { path = path.old; sched = S.state sched.old; dev = D.state dev.old }) lines.now }
    ensures valid { D.valid (D.state dev.new) }
    ensures scheduler { S.valid (S.state sched.new) }
    ensures base { (D.seen (D.state dev.new)).base ≡ (D.seen (D.state dev.old)).base }
    ensures path { PathFits path.new (S.steps.seen (S.state sched.new)) requests.now (D.seen (D.state dev.new)) }
{
    for line in lines {
        do_line(path, sched, dev, requests, *line);
    }
}

// How many requests the script's scheduler may be given.
fn scheduled_count(script: &Script) -> u64
    ensures { result ≡ scheduled_count script.now }
{
    match script.kind {
        Form::Device(_) => 0,
        Form::Blocks(_) => script.puts.len() as u64,
    }
}

// Runs a script on this scheduler and this device, and cuts the power.
fn run_with<S: Scheduler + Drop, D: OrderedDev + Drop>(
    alloc: Global,
    script: &Script,
    sched: S,
    dev: D,
) -> Result<Report, NoMemory>
    requires valid { D.valid (D.state dev) }
    requires scheduler { S.valid (S.state sched) }
    requires new { IsNewScheduler (scheduled_count script.now) CAPACITY (S.steps.seen (S.state sched)) }
    requires path { PathFits (opened_path script.now) (S.steps.seen (S.state sched)) script.now.puts (D.seen (D.state dev)) }
    ensures fits { IfOk result PartsFit }
    ensures core { let end = ended S.steps (machine_of D.OrderedDev) (run_of S.steps (machine_of D.OrderedDev) script.now (S.state sched) (D.state dev)) in
        IfOk result (IsReportOf script.now end) }
    ensures order { let end = ended S.steps (machine_of D.OrderedDev) (run_of S.steps (machine_of D.OrderedDev) script.now (S.state sched) (D.state dev)) in
        IfOk result (λ r. KeepsOrder (D.seen (D.state dev)).base r.submitted r.cut.image r.cut.origins (r.cut.trace.sent.items ++ end.dev.waiting)) }
{
    let mut dev = dev;
    let mut sched = sched;
    let mut path = RequestPath::open(alloc, script)?;
    do_lines(
        &mut path,
        &mut sched,
        &mut dev,
        &script.puts,
        script.events.as_slice(),
    );
    keeps_order_to_the_medium(&dev);
    let submitted = script.puts.copy_front(alloc, path.submitted())?;
    let script = script.copy(alloc)?;
    Ok(Report {
        script,
        submitted,
        sched: sched.into_trace(),
        cut: dev.cut(),
    })
}

/// Runs a script on the scheduler that it names and a device that was made over its image, zeros, and has
/// taken no command; and cuts the power.
pub fn run_on<D: OrderedDev + Drop>(
    alloc: Global,
    script: &Script,
    dev: D,
) -> Result<Report, NoMemory>
    requires script { IsRunnable script.now }
    requires image { (D.seen (D.state dev)).base ≡ zeros (blocks_of script.now) }
    requires unused { (D.seen (D.state dev)).took ≡ [] }
    requires ids { length script.now.puts ≤ (D.seen (D.state dev)).limit }
    ensures fits { IfOk result PartsFit }
    ensures core { let end = end_on (machine_of D.OrderedDev) script.now (D.state dev) in
        IfOk result (IsReportOf script.now end) }
    ensures order { let end = end_on (machine_of D.OrderedDev) script.now (D.state dev) in
        IfOk result (λ r. KeepsOrder (zeros (blocks_of script.now)) r.submitted r.cut.image r.cut.origins (r.cut.trace.sent.items ++ end.dev.waiting)) }
{
    // For the proof alone: the answer brings the laws of the device.
    let _ = dev.blocks();
    let limit = scheduled_count(script);
    if script.header.elevator {
        let sched = Elevator::make(alloc, limit)?;
        run_with(alloc, script, sched, dev)
    } else {
        let sched = Sched::make(alloc, limit)?;
        run_with(alloc, script, sched, dev)
    }
}

// The model device that a script opens, over zeros.
fn model_device(alloc: Global, script: &Script) -> Result<EpochDevice, NoMemory>
    requires { IsRunnable script.now }
    ensures { IfOk result (λ d. d ≡ opened_for script.now) }
{
    let image = Image::zeroed(alloc, script.blocks())?;
    let setup = DeviceSetup {
        depth: script.header.depth,
        limit: script.puts.len() as u64,
        fail_at: script.header.fail,
        bad_read: None,
        cut_at: script.header.cut,
    };
    EpochDevice::make(alloc, image, setup)
}

// The flash log of so many segments that a script opens, over zeros.
fn flash_log(alloc: Global, script: &Script, segments: u32) -> Result<FlogDevice, NoMemory>
    requires script { IsRunnable script.now }
    requires flash { script.now.header.flash ≡ Some segments }
    ensures { IfOk result (λ d. d ≡ flash_opened_for script.now segments) }
{
    let image = Image::zeroed(alloc, script.blocks())?;
    let setup = FlogSetup {
        depth: script.header.depth,
        limit: script.puts.len() as u64,
        segments,
        fail_at: script.header.fail,
        cut_at: script.header.cut,
    };
    FlogDevice::make(alloc, image, setup)
}

// Runs a script without a `flash` line on a new model device.
fn run_on_model(alloc: Global, script: &Script) -> Result<Report, NoMemory>
    requires script { IsRunnable script.now }
    requires model { script.now.header.flash ≡ None }
    ensures fits { IfOk result PartsFit }
    ensures core { IfOk result (IsCoreReport script.now) }
    ensures order { IfOk result Headline }
{
    let dev = model_device(alloc, script)?;
    run_on(alloc, script, dev)
}

// Runs a script with a `flash` line on a new flash log of so many segments.
fn run_on_log(alloc: Global, script: &Script, segments: u32) -> Result<Report, NoMemory>
    requires script { IsRunnable script.now }
    requires flash { script.now.header.flash ≡ Some segments }
    ensures fits { IfOk result PartsFit }
    ensures core { IfOk result (IsCoreReport script.now) }
    ensures order { IfOk result Headline }
{
    let dev = flash_log(alloc, script, segments)?;
    run_on(alloc, script, dev)
}

/// Runs a script on a new device over zeros, and cuts the power: on a flash log where the script has a `flash` line, else on
/// the model device.
pub fn core_run(alloc: Global, script: &Script) -> Result<Report, NoMemory>
    requires { IsRunnable script.now }
    ensures fits { IfOk result PartsFit }
    ensures core { IfOk result (IsCoreReport script.now) }
    ensures order { IfOk result Headline }
{
    match script.header.flash {
        None => run_on_model(alloc, script),
        Some(segments) => run_on_log(alloc, script, segments),
    }
}
