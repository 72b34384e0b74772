//! The top call.
ghost use Rattle.std.specs.Prelude.{◌≡◌, ℕ, ◌≤◌, Option, Some, None, Ok, length, codes, IfOk, IfErr, IfSome, IsErrOf};
ghost use Rattle.barrierfs_top.specs.Tasks.{lone_task_of, run_of, CanDo};
ghost use Rattle.barrierfs_top.specs.Text.{output_bytes};
ghost use Rattle.barrierfs_top.specs.Top.{status_of, stream_of, IsReplay, IsBlocksReplay, IsBlocksFault, IsMade, IsInputFault, IsUnread, Does, Cause, WasWritten, top_fault, end_fault};
ghost use Rattle.barrierfs_top.specs.TopEnd.{EndsFor};
ghost use Rattle.std.specs.String.{string_bytes};
ghost use Rattle.barrierfs_top.specs.declared.command_line.InputTask.{InputTask};
ghost use Rattle.barrierfs_top.specs.declared.command_line.Sizes.{Sizes};
ghost use Rattle.barrierfs_top.specs.declared.command_line.Task.{Task};
ghost use Rattle.barrierfs_top.specs.Show.{shown, IsMountedFault};
ghost use Rattle.barrierfs_top.specs.Widen.{IsWidened, IsWidenFault};
ghost use Rattle.barrierfs_top.specs.Check.{IsChecked, IsCheckFault};
ghost use Rattle.barrierfs_top.specs.Bulk.{IsWorkload};

use crate::bulk::run_workload;
use crate::check::check_image;
use crate::command_line::{InputTask, Sizes, Task, Words};
use crate::fault::TopFault;
use crate::output::Output;
use crate::run_report::RunReport;
use crate::session::{is_session, run_session_image, run_session_text};
use crate::show::show_text;
use crate::store::run_store_text;
use crate::text::put_report;
use crate::widen::widen_output;
use blk_base::{Image, ReadEnd, Sink, Source, read_all, read_image};
use minix_layout::DEFAULT_WIDTH;
use mount_make::{MakeFault, make_volume};
use script_grammar::{MOST_SCRIPT_BYTES, ScriptError, read_script};
use stack_core::core_run;
use std::alloc::Global;

/// How the top call ended.
#[derive(Drop)]
pub struct Outcome {
    /// The exit status: 0 where there is no fault.
    pub status: u8,
    pub fault: Option<TopFault>,
    /// What the run left, where a script was run to its end.
    pub report: Option<RunReport>,
}

// What a task has to write, and the report of a run.
#[derive(Drop)]
pub struct Printed {
    pub report: Option<RunReport>,
    pub output: Output,
}

pub fn fault_of(error: ScriptError) -> TopFault
    ensures { result ≡ top_fault error }
{
    match error {
        ScriptError::Fault(line, kind) => TopFault::Script(line, kind),
        ScriptError::NoMemory => TopFault::NoMemory,
    }
}

pub fn read_fault(end: ReadEnd) -> TopFault
    ensures { result ≡ end_fault end }
{
    match end {
        ReadEnd::Fault => TopFault::SourceFault,
        ReadEnd::TooLong => TopFault::TooLong,
        ReadEnd::NoMemory => TopFault::NoMemory,
    }
}

// Runs the script of block requests of these bytes, and makes its text.
fn run_blocks_text(alloc: Global, bytes: &[u8]) -> Result<Printed, TopFault>
    requires { length bytes.now ≤ MOST_SCRIPT_BYTES }
    ensures ok { IfOk result (λ p. IsBlocksReplay bytes.now p.report (output_bytes p.output)) }
    ensures err { IfErr result (IsBlocksFault bytes.now) }
{
    let script = match read_script(alloc, bytes) {
        Ok(script) => script,
        Err(error) => return Err(fault_of(error)),
    };
    let Ok(report) = core_run(alloc, &script) else {
        return Err(TopFault::NoMemory);
    };
    let mut text = String::new(alloc);
    match put_report(
        &mut text,
        report.cut.trace.steps,
        &report.cut.image,
        report.cut.origins.as_slice(),
    ) {
        Ok(()) => Ok(Printed {
            report: Some(RunReport::Blocks(report)),
            output: Output::Text(text),
        }),
        Err(_) => {
            drop(report);
            Err(TopFault::NoMemory)
        }
    }
}

// Runs the script of these bytes, whichever kind it is, and makes its text; or runs the volume script, and takes the image
// that recovery left.
fn run_script(alloc: Global, bytes: &[u8], raw: bool) -> Result<Printed, TopFault>
    requires { length bytes.now ≤ MOST_SCRIPT_BYTES }
    ensures ok { IfOk result (λ p. IsReplay raw bytes.now p.report (output_bytes p.output)) }
    ensures err { IfErr result (IsInputFault (InputTask.Replay raw) bytes.now) }
{
    if raw {
        return run_session_image(alloc, bytes);
    }
    let Ok(session) = is_session(alloc, bytes) else {
        return Err(TopFault::NoMemory);
    };
    if session {
        run_session_text(alloc, bytes)
    } else {
        run_blocks_text(alloc, bytes)
    }
}

// The text of the tree of an image.
fn show(alloc: Global, image: Image) -> Result<Printed, TopFault>
    ensures ok { IfOk result (λ p. (shown image ≡ Ok (output_bytes p.output)) × (p.report ≡ None)) }
    ensures err { IfErr result (IsMountedFault image) }
{
    let text = show_text(alloc, image)?;
    Ok(Printed {
        report: None,
        output: Output::Text(text),
    })
}

// What is written of an image that is widened.
fn widen(alloc: Global, image: Image, raw: bool) -> Result<Printed, TopFault>
    ensures ok { IfOk result (λ p. IsWidened raw image (output_bytes p.output) × (p.report ≡ None)) }
    ensures err { IfErr result (IsWidenFault raw image) }
{
    let output = widen_output(alloc, image, raw)?;
    Ok(Printed {
        report: None,
        output,
    })
}

// What is printed of an image that is clean.
fn check(alloc: Global, image: Image) -> Result<Printed, TopFault>
    ensures ok { IfOk result (λ p. IsChecked image None × (output_bytes p.output ≡ codes "clean\n") × (p.report ≡ None)) }
    ensures err { IfErr result (IsCheckFault image) }
{
    check_image(alloc, image)?;
    match String::from_str(alloc, "clean\n") {
        Ok(text) => Ok(Printed {
            report: None,
            output: Output::Text(text),
        }),
        Err(_) => Err(TopFault::NoMemory),
    }
}

// An image of these sizes, with names of the default width.
fn make(alloc: Global, sizes: Sizes) -> Result<Printed, TopFault>
    requires { CanDo (Task.Make sizes) }
    ensures ok { IfOk result (λ p. IsMade sizes p.report (output_bytes p.output)) }
    ensures err { IfErr result (λ fault. fault ≡ TopFault.NoMemory) }
{
    match make_volume(
        alloc,
        sizes.inodes,
        sizes.zones,
        sizes.journal,
        DEFAULT_WIDTH,
        false,
    ) {
        Ok(image) => Ok(Printed {
            report: None,
            output: Output::Image(image),
        }),
        Err(MakeFault::NoMemory) => Err(TopFault::NoMemory),
        Err(MakeFault::TooSmall | MakeFault::JournalSize) => unreachable!(),
    }
}

// Reads a script and runs it.
fn read_and_run<R: Source>(alloc: Global, src: &mut R, raw: bool) -> Result<Printed, TopFault>
    ensures ok { (asked : Option Task) → asked ≡ Some (Task.Read (InputTask.Replay raw)) →
        IfOk result (λ p. Does asked (stream_of R.left R.faults src.old src.new) p.report (output_bytes p.output)) }
    ensures err { (asked : Option Task) → asked ≡ Some (Task.Read (InputTask.Replay raw)) → IfErr result (Cause asked (stream_of R.left R.faults src.old src.new)) }
    ensures steady { (IsErrOf result TopFault.SourceFault → ⊥) → R.faults src.new ≡ R.faults src.old }
{
    let command = InputTask::Replay { raw };
    match read_all(alloc, src, command.most()) {
        Ok(bytes) => run_script(alloc, &bytes, raw),
        Err(end) => Err(read_fault(end)),
    }
}

// Reads an image block by block, and makes the text of its tree.
fn read_and_show<R: Source>(alloc: Global, src: &mut R) -> Result<Printed, TopFault>
    ensures ok { (asked : Option Task) → asked ≡ Some (Task.Read InputTask.Show) →
        IfOk result (λ p. Does asked (stream_of R.left R.faults src.old src.new) p.report (output_bytes p.output)) }
    ensures err { (asked : Option Task) → asked ≡ Some (Task.Read InputTask.Show) → IfErr result (Cause asked (stream_of R.left R.faults src.old src.new)) }
    ensures steady { (IsErrOf result TopFault.SourceFault → ⊥) → R.faults src.new ≡ R.faults src.old }
{
    match read_image(alloc, src, InputTask::Show.most()) {
        Ok(image) => show(alloc, image),
        Err(end) => Err(read_fault(end)),
    }
}

// Reads an image block by block, and widens it.
fn read_and_widen<R: Source>(alloc: Global, src: &mut R, raw: bool) -> Result<Printed, TopFault>
    ensures ok { (asked : Option Task) → asked ≡ Some (Task.Read (InputTask.Widen raw)) →
        IfOk result (λ p. Does asked (stream_of R.left R.faults src.old src.new) p.report (output_bytes p.output)) }
    ensures err { (asked : Option Task) → asked ≡ Some (Task.Read (InputTask.Widen raw)) → IfErr result (Cause asked (stream_of R.left R.faults src.old src.new)) }
    ensures steady { (IsErrOf result TopFault.SourceFault → ⊥) → R.faults src.new ≡ R.faults src.old }
{
    let command = InputTask::Widen { raw };
    match read_image(alloc, src, command.most()) {
        Ok(image) => widen(alloc, image, raw),
        Err(end) => Err(read_fault(end)),
    }
}

// Reads an image block by block, and checks it.
fn read_and_check<R: Source>(alloc: Global, src: &mut R) -> Result<Printed, TopFault>
    ensures ok { (asked : Option Task) → asked ≡ Some (Task.Read InputTask.Check) →
        IfOk result (λ p. Does asked (stream_of R.left R.faults src.old src.new) p.report (output_bytes p.output)) }
    ensures err { (asked : Option Task) → asked ≡ Some (Task.Read InputTask.Check) → IfErr result (Cause asked (stream_of R.left R.faults src.old src.new)) }
    ensures steady { (IsErrOf result TopFault.SourceFault → ⊥) → R.faults src.new ≡ R.faults src.old }
{
    match read_image(alloc, src, InputTask::Check.most()) {
        Ok(image) => check(alloc, image),
        Err(end) => Err(read_fault(end)),
    }
}

// Reads a store's script and runs it.
fn read_and_keep<R: Source>(alloc: Global, src: &mut R) -> Result<Printed, TopFault>
    ensures ok { (asked : Option Task) → asked ≡ Some (Task.Read InputTask.Kv) →
        IfOk result (λ p. Does asked (stream_of R.left R.faults src.old src.new) p.report (output_bytes p.output)) }
    ensures err { (asked : Option Task) → asked ≡ Some (Task.Read InputTask.Kv) → IfErr result (Cause asked (stream_of R.left R.faults src.old src.new)) }
    ensures steady { (IsErrOf result TopFault.SourceFault → ⊥) → R.faults src.new ≡ R.faults src.old }
{
    match read_all(alloc, src, InputTask::Kv.most()) {
        Ok(bytes) => run_store_text(alloc, &bytes),
        Err(end) => Err(read_fault(end)),
    }
}

// All that comes before the first write.
fn prepare<R: Source>(alloc: Global, asked: Option<Task>, src: &mut R) -> Result<Printed, TopFault>
    requires can { IfSome asked (λ t. CanDo t) }
    requires lone { IfSome asked (λ t. run_of t ≡ None) }
    ensures ok { IfOk result (λ p. Does asked (stream_of R.left R.faults src.old src.new) p.report (output_bytes p.output)) }
    ensures err { IfErr result (Cause asked (stream_of R.left R.faults src.old src.new)) }
    ensures words { asked ≡ None → IsErrOf result TopFault.BadWords }
    ensures made { (s : Sizes) → asked ≡ Some (Task.Make s) → IfErr result (λ fault. fault ≡ TopFault.NoMemory) }
    ensures generated { (n : ℕ) → asked ≡ Some (Task.Bulk n) → IfErr result (λ fault. fault ≡ TopFault.NoMemory) }
    ensures unread { ((c : InputTask) → asked ≡ Some (Task.Read c) → ⊥) → IsUnread (stream_of R.left R.faults src.old src.new) }
    ensures steady { (IsErrOf result TopFault.SourceFault → ⊥) → R.faults src.new ≡ R.faults src.old }
{
    let Some(task) = asked else {
        return Err(TopFault::BadWords);
    };
    match task {
        Task::Read(InputTask::Replay { raw }) => read_and_run(alloc, src, raw),
        Task::Read(InputTask::Run { .. }) => unreachable!(),
        Task::Read(InputTask::Show) => read_and_show(alloc, src),
        Task::Read(InputTask::Widen { raw }) => read_and_widen(alloc, src, raw),
        Task::Read(InputTask::Check) => read_and_check(alloc, src),
        Task::Read(InputTask::Kv) => read_and_keep(alloc, src),
        Task::Make(sizes) => make(alloc, sizes),
        Task::Bulk(number) => run_workload(alloc, number),
    }
}

/// Does what the words say: `replay` reads a script of the source, runs it and writes its report to the sink: what is left of
/// the blocks, or of a volume script the replies to its calls and the tree that recovery finds, or with `--raw` the image that
/// recovery leaves,
/// `show` reads an image and writes the text of the tree that it has once its journal was recovered, `widen` gives the
/// image names of 30 bytes and writes the text of the tree that it then has, or with `--raw` its bytes, `check` writes
/// that the image is clean, or else its verdict is the fault, `kv` reads a store's script of the source, runs it and writes
/// what its log holds, `make` with the numbers of inodes, blocks of the volume
/// and blocks of the journal writes a new image, and `bulk` with a number runs the workload that is generated from it
/// and writes the summary.
///
/// The statuses are tested in the order 2, 5 and 7, 3 or 4, 9 or 10, 6. Status 8, want of memory, may come at any place
/// before the first write.
pub fn alone<R: Source, W: Sink>(alloc: Global, words: &Words, src: &mut R, out: &mut W) -> Outcome
    ensures status { result.status ≡ status_of result.fault }
    ensures ends { EndsFor (lone_task_of words.now) (stream_of R.left R.faults src.old src.new) (stream_of W.taken W.faults out.old out.new) result.report result.fault }
{
    match words.lone_task(alloc) {
        Ok(asked) => do_asked(alloc, asked, src, out),
        Err(_) => failed(TopFault::NoMemory),
    }
}

// Does what is asked, where that needs no threads.
pub(crate) fn do_asked<R: Source, W: Sink>(
    alloc: Global,
    asked: Option<Task>,
    src: &mut R,
    out: &mut W,
) -> Outcome
    requires can { IfSome asked (λ t. CanDo t) }
    requires lone { IfSome asked (λ t. run_of t ≡ None) }
    ensures status { result.status ≡ status_of result.fault }
    ensures ends { EndsFor asked (stream_of R.left R.faults src.old src.new) (stream_of W.taken W.faults out.old out.new) result.report result.fault }
{
    match prepare(alloc, asked, src) {
        Ok(printed) => written(printed, out),
        Err(fault) => failed(fault),
    }
}

// Writes what is prepared.
pub(crate) fn written<W: Sink>(printed: Printed, out: &mut W) -> Outcome
    ensures status { result.status ≡ status_of result.fault }
    ensures written { WasWritten (output_bytes printed.output) (stream_of W.taken W.faults out.old out.new) result.fault }
    ensures report { result.report ≡ printed.report }
    ensures steady { (result.fault ≡ Some TopFault.SinkFault → ⊥) → W.faults out.new ≡ W.faults out.old }
{
    match printed.output.write(out) {
        Ok(()) => Outcome {
            status: 0,
            fault: None,
            report: printed.report,
        },
        Err(_) => Outcome {
            status: 6,
            fault: Some(TopFault::SinkFault),
            report: printed.report,
        },
    }
}

// Nothing was written.
pub(crate) fn failed(fault: TopFault) -> Outcome
    ensures status { result.status ≡ status_of (Some fault) }
    ensures fault { result.fault ≡ Some fault }
    ensures report { result.report ≡ None }
{
    Outcome {
        status: status(fault),
        fault: Some(fault),
        report: None,
    }
}

pub(crate) fn status(fault: TopFault) -> u8
    ensures { result ≡ status_of (Some fault) }
{
    match fault {
        TopFault::BadWords => 2,
        TopFault::Script(_, _) => 3,
        TopFault::Image(_, _) => 4,
        TopFault::SourceFault => 5,
        TopFault::SinkFault => 6,
        TopFault::TooLong => 7,
        TopFault::NoMemory => 8,
        TopFault::NoRoom => 9,
        TopFault::Unsound(_) => 10,
    }
}
