//! The replay of volume scripts.
ghost use Rattle.std.specs.Prelude.{◌≡◌, ◌≤◌, length, map, IfOk, IfErr};
ghost use Rattle.std.specs.List.{concat};
ghost use Rattle.std.specs.String.{string_bytes};
ghost use Rattle.blk_base.specs.Image.{whole_blocks};
ghost use Rattle.script_words.specs.Spelling.{words_of};
ghost use Rattle.script_grammar.specs.declared.limits.TheConstants.{MOST_SCRIPT_BYTES};
ghost use Rattle.session_grammar.specs.WellFormed.{IsWellFormed};
ghost use Rattle.session_core.specs.Core.{ArePlaced, entry_in};
ghost use Rattle.barrierfs_top.specs.Sessions.{begins_session, is_session, names_volume, IsSessionText, IsSomeReport, IsSessionOf, IsSessionReplay, IsImageReplay, figures_of};
ghost use Rattle.barrierfs_top.specs.Top.{IsSessionFault};
ghost use Rattle.barrierfs_top.specs.Text.{output_bytes};

use crate::fault::TopFault;
use crate::output::Output;
use crate::run_report::RunReport;
use crate::show::tree_text;
use crate::top::{Printed, fault_of};
use blk_base::{Image, NoMemory};
use host_answers::Entry;
use script_words::{is_skipped, lines, words};
use session_core::{SessionReport, core_run};
use session_grammar::{SessionScript, read_session};
use session_report::{Figures, lines_of_scripts_are_ascii, put_session};
use std::alloc::Global;

// The words of a line begin with `volume`.
fn names_volume(alloc: Global, line: &[u8]) -> Result<bool, NoMemory>
    ensures { IfOk result (λ is. is ≡ names_volume (words_of line.now)) }
{
    let words = words(alloc, line)?;
    Ok(match words.first() {
        Some(word) => *word == b"volume".as_slice(),
        None => false,
    })
}

// The first of these lines that is not skipped begins with `volume`.
fn begins_session(alloc: Global, lines: &[&[u8]]) -> Result<bool, NoMemory>
    ensures { IfOk result (λ is. is ≡ begins_session (map (λ x. x.now) lines.now)) }
{
    for line in lines {
        if !is_skipped(line) {
            return names_volume(alloc, line);
        }
    }
    Ok(false)
}

/// Whether a text is a volume script: its first line that is not skipped begins so.
pub fn is_session(alloc: Global, bytes: &[u8]) -> Result<bool, NoMemory>
    ensures { IfOk result (λ is. is ≡ is_session bytes.now) }
{
    let lines = lines(alloc, bytes)?;
    begins_session(alloc, &lines)
}

/// What the host noted of the calls, whose programs are those of the script. The script is for the clauses alone.
pub fn noted<'a>(report: &'a SessionReport, _script: &SessionScript) -> &'a [Entry]
    requires { IsSomeReport _script.now report.now }
    ensures noted { report.now.host.host.history ≡ map (entry_in report.now.host.programs) result.now }
    ensures placed { ArePlaced _script.now.programs result.now }
{
    report.host.history()
}

/// The figures of a session.
pub fn figures_of(report: &SessionReport) -> Figures
    ensures { figures_of report.now ≡ record { steps = result.steps; requests = result.requests; closed = result.closed; found = result.found } }
{
    Figures {
        steps: report.cut.trace.steps(),
        requests: report.host.submitted(),
        closed: report.host.cuts().len() as u64,
        found: report.found.into(),
    }
}

/// The text of a session's report.
pub fn session_text(
    alloc: Global,
    script: &SessionScript,
    report: &SessionReport,
) -> Result<String, NoMemory>
    requires script { IsWellFormed script.now }
    requires report { IsSomeReport script.now report.now }
    ensures { IfOk result (λ text. IsSessionText script.now report.now (string_bytes text)) }
{
    lines_of_scripts_are_ascii();
    let mut text = String::new(alloc);
    put_session(
        &mut text,
        &script.programs,
        &script.lines,
        &figures_of(report),
        noted(report, script),
        &report.standings,
    )?;
    let tree = tree_text(alloc, &report.volume)?;
    text.push_str(&tree)?;
    Ok(text)
}

// Runs the volume script of these bytes.
fn run_session(alloc: Global, bytes: &[u8]) -> Result<(SessionScript, SessionReport), TopFault>
    requires { length bytes.now ≤ MOST_SCRIPT_BYTES }
    ensures ran { IfOk result (λ r. IsSessionOf bytes.now r.0 r.1) }
    ensures formed { IfOk result (λ r. IsWellFormed r.0) }
    ensures err { IfErr result (IsSessionFault bytes.now) }
{
    let script = match read_session(alloc, bytes) {
        Ok(script) => script,
        Err(error) => return Err(fault_of(error)),
    };
    match core_run(alloc, &script) {
        Ok(report) => Ok((script, report)),
        Err(_) => Err(TopFault::NoMemory),
    }
}

/// Runs the volume script of these bytes, and makes its text.
pub fn run_session_text(alloc: Global, bytes: &[u8]) -> Result<Printed, TopFault>
    requires { length bytes.now ≤ MOST_SCRIPT_BYTES }
    ensures ok { IfOk result (λ p. IsSessionReplay bytes.now p.report (output_bytes p.output)) }
    ensures err { IfErr result (IsSessionFault bytes.now) }
{
    let (script, report) = run_session(alloc, bytes)?;
    match session_text(alloc, &script, &report) {
        Ok(text) => Ok(Printed {
            report: Some(RunReport::Session(report)),
            output: Output::Text(text),
        }),
        Err(_) => {
            drop(report);
            Err(TopFault::NoMemory)
        }
    }
}

/// Runs the volume script of these bytes, and takes the image that recovery left.
pub fn run_session_image(alloc: Global, bytes: &[u8]) -> Result<Printed, TopFault>
    requires { length bytes.now ≤ MOST_SCRIPT_BYTES }
    ensures ok { IfOk result (λ p. IsImageReplay bytes.now p.report (output_bytes p.output)) }
    ensures err { IfErr result (IsSessionFault bytes.now) }
{
    let (_script, report) = run_session(alloc, bytes)?;
    match left_image(alloc, &report) {
        Ok(image) => Ok(Printed {
            report: Some(RunReport::Session(report)),
            output: Output::Image(image),
        }),
        Err(_) => {
            drop(report);
            Err(TopFault::NoMemory)
        }
    }
}

/// The image that recovery left.
pub fn left_image(alloc: Global, report: &SessionReport) -> Result<Image, NoMemory>
    ensures image { IfOk result (λ image. image ≡ report.now.image) }
    ensures whole { IfOk result (λ image. whole_blocks (concat image) ≡ image) }
{
    let image = report.image.copy(alloc)?;
    check_blocks(&image);
    Ok(image)
}

// All blocks of an image are of one length, as their type says, so its bytes are read as these blocks. It does nothing.
fn check_blocks(image: &Image)
    ensures { whole_blocks (concat image.now) ≡ image.now }
{
    for b in 0..image.len() {
        let _bytes = image.block(b).as_slice();
    }
}
