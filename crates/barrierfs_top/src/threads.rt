//! `run`: a volume script whose session runs in threads; and the top call that has it beside all other words.
ghost use Rattle.std.specs.Prelude.{◌≡◌, ◌≤◌, Option, Some, None, length, IfOk, IfErr, IfSome, IsErrOf};
ghost use Rattle.script_grammar.specs.declared.limits.TheConstants.{MOST_SCRIPT_BYTES};
ghost use Rattle.session_grammar.specs.WellFormed.{IsWellFormed};
ghost use Rattle.barrierfs_top.specs.Runs.{IsRun, IsRunImage, IsRunText, IsThreadsOf};
ghost use Rattle.barrierfs_top.specs.Tasks.{task_of, CanDo};
ghost use Rattle.barrierfs_top.specs.Text.{output_bytes};
ghost use Rattle.barrierfs_top.specs.Top.{status_of, stream_of, Cause, Does, IsInputFault, IsThreadsFault};
ghost use Rattle.barrierfs_top.specs.TopEnd.{EndsFor};
ghost use Rattle.barrierfs_top.specs.declared.command_line.InputTask.{InputTask};
ghost use Rattle.barrierfs_top.specs.declared.command_line.Task.{Task};
ghost use Rattle.barrierfs_top.specs.declared.fault.TopFault.{TopFault};

use crate::command_line::{InputTask, Task, Words, run_asked};
use crate::fault::TopFault;
use crate::output::Output;
use crate::run_report::RunReport;
use crate::session::{left_image, session_text};
use crate::threads_script::read_threads_script;
use crate::top::{Outcome, Printed, do_asked, failed, fault_of, read_fault, written};
use blk_base::{Sink, Source, read_all};
use session_grammar::SessionScript;
use session_threads::sides::Gate;
use session_threads::{ThreadsReport, run_threads};
use std::alloc::Global;
use std::sync::Wait;
use std::thread::Threads;

/// Lets every worker of a run pass.
pub struct OpenGate;

impl Gate for OpenGate {
    fn pass(&self, _who: u32, _turn: u64) -> bool {
        true
    }
}

// Runs the volume script of these bytes in threads.
fn run_session<H: Threads + Wait + Sync, G: Gate + Sync>(
    rt: &H,
    alloc: Global,
    bytes: &[u8],
    gate: &G,
) -> Result<(SessionScript, ThreadsReport), TopFault>
    requires { length bytes.now ≤ MOST_SCRIPT_BYTES }
    ensures ran { IfOk result (λ r. IsThreadsOf bytes.now r.0 r.1) }
    ensures formed { IfOk result (λ r. IsWellFormed r.0) }
    ensures err { IfErr result (IsThreadsFault bytes.now) }
{
    let script = match read_threads_script(alloc, bytes) {
        Ok(script) => script,
        Err(error) => return Err(fault_of(error)),
    };
    match run_threads(rt, alloc, &script, gate) {
        Ok(report) => Ok((script, report)),
        Err(_) => Err(TopFault::NoMemory),
    }
}

// Runs it, and makes its text.
fn run_text<H: Threads + Wait + Sync, G: Gate + Sync>(
    rt: &H,
    alloc: Global,
    bytes: &[u8],
    gate: &G,
) -> Result<Printed, TopFault>
    requires { length bytes.now ≤ MOST_SCRIPT_BYTES }
    ensures ok { IfOk result (λ p. IsRunText bytes.now p.report (output_bytes p.output)) }
    ensures err { IfErr result (IsThreadsFault bytes.now) }
{
    let (script, report) = run_session(rt, alloc, bytes, gate)?;
    match session_text(alloc, &script, &report.report) {
        Ok(text) => Ok(Printed {
            report: Some(RunReport::Threads(report)),
            output: Output::Text(text),
        }),
        Err(_) => {
            drop(report);
            Err(TopFault::NoMemory)
        }
    }
}

// Runs it, and takes the image that recovery left.
fn run_image<H: Threads + Wait + Sync, G: Gate + Sync>(
    rt: &H,
    alloc: Global,
    bytes: &[u8],
    gate: &G,
) -> Result<Printed, TopFault>
    requires { length bytes.now ≤ MOST_SCRIPT_BYTES }
    ensures ok { IfOk result (λ p. IsRunImage bytes.now p.report (output_bytes p.output)) }
    ensures err { IfErr result (IsThreadsFault bytes.now) }
{
    let (_script, report) = run_session(rt, alloc, bytes, gate)?;
    match left_image(alloc, &report.report) {
        Ok(image) => Ok(Printed {
            report: Some(RunReport::Threads(report)),
            output: Output::Image(image),
        }),
        Err(_) => {
            drop(report);
            Err(TopFault::NoMemory)
        }
    }
}

fn run_script<H: Threads + Wait + Sync, G: Gate + Sync>(
    rt: &H,
    alloc: Global,
    bytes: &[u8],
    raw: bool,
    gate: &G,
) -> Result<Printed, TopFault>
    requires { length bytes.now ≤ MOST_SCRIPT_BYTES }
    ensures ok { IfOk result (λ p. IsRun raw bytes.now p.report (output_bytes p.output)) }
    ensures err { IfErr result (IsInputFault (InputTask.Run raw) bytes.now) }
{
    if raw {
        run_image(rt, alloc, bytes, gate)
    } else {
        run_text(rt, alloc, bytes, gate)
    }
}

// Reads the script and runs it.
fn read_and_run<H: Threads + Wait + Sync, R: Source, G: Gate + Sync>(
    rt: &H,
    alloc: Global,
    src: &mut R,
    raw: bool,
    gate: &G,
) -> Result<Printed, TopFault>
    ensures ok { IfOk result (λ p. Does (Some (Task.Read (InputTask.Run raw))) (stream_of R.left R.faults src.old src.new) p.report (output_bytes p.output)) }
    ensures err { IfErr result (Cause (Some (Task.Read (InputTask.Run raw))) (stream_of R.left R.faults src.old src.new)) }
    ensures steady { (IsErrOf result TopFault.SourceFault → ⊥) → R.faults src.new ≡ R.faults src.old }
{
    let command = InputTask::Run { raw };
    match read_all(alloc, src, command.most()) {
        Ok(bytes) => run_script(rt, alloc, &bytes, raw, gate),
        Err(end) => Err(read_fault(end)),
    }
}

// `run`, with `--raw` behind it or without.
fn run<H: Threads + Wait + Sync, R: Source, W: Sink, G: Gate + Sync>(
    rt: &H,
    alloc: Global,
    raw: bool,
    src: &mut R,
    out: &mut W,
    gate: &G,
) -> Outcome
    ensures status { result.status ≡ status_of result.fault }
    ensures ends { EndsFor (Some (Task.Read (InputTask.Run raw))) (stream_of R.left R.faults src.old src.new) (stream_of W.taken W.faults out.old out.new) result.report result.fault }
{
    match read_and_run(rt, alloc, src, raw, gate) {
        Ok(printed) => written(printed, out),
        Err(fault) => failed(fault),
    }
}

// Does what is asked.
fn do_task<H: Threads + Wait + Sync, R: Source, W: Sink, G: Gate + Sync>(
    rt: &H,
    alloc: Global,
    asked: Option<Task>,
    src: &mut R,
    out: &mut W,
    gate: &G,
) -> Outcome
    requires { IfSome asked (λ t. CanDo t) }
    ensures status { result.status ≡ status_of result.fault }
    ensures ends { EndsFor asked (stream_of R.left R.faults src.old src.new) (stream_of W.taken W.faults out.old out.new) result.report result.fault }
{
    match run_asked(asked) {
        Some(raw) => run(rt, alloc, raw, src, out, gate),
        None => do_asked(alloc, asked, src, out),
    }
}

/// Does what the words say: `run` reads a volume script, runs its programs in threads, where its event lines are not used, and
/// writes the report of that session or with `--raw` the image that recovery left; all other words are those of `alone`.
///
/// A run waits for its threads, so it returns only once the session has ended, which is not promised. What it promises, where
/// it returns, is what `replay` promises, of the session as its threads made it.
pub fn barrierfs<H: Threads + Wait + Sync, R: Source, W: Sink, G: Gate + Sync>(
    rt: &H,
    alloc: Global,
    words: &Words,
    src: &mut R,
    out: &mut W,
    gate: &G,
) -> Outcome
    ensures status { result.status ≡ status_of result.fault }
    ensures ends { EndsFor (task_of words.now) (stream_of R.left R.faults src.old src.new) (stream_of W.taken W.faults out.old out.new) result.report result.fault }
{
    match words.task(alloc) {
        Ok(asked) => do_task(rt, alloc, asked, src, out, gate),
        Err(_) => failed(TopFault::NoMemory),
    }
}
