//! The lines of a report before its tree.
ghost use Rattle.std.specs.Prelude.{◌≡◌, ◌+◌, ◌-◌, ◌*◌, ◌++◌, ◌<◌, ◌≤◌, ◌^◌, [], length, map, slice_index_or, OnOk};
ghost use Rattle.std.specs.List.{All};
ghost use Rattle.std.specs.String.{string_bytes};
ghost use Rattle.session_report.specs.text.Lines.{is_ascii};
ghost use Rattle.session_report.specs.ReportText.{calls_before, line_at, what_text, answers_text, threads_text, session_lines, AreAscii};

use crate::text::{put_answer, put_count, put_thread};
use host_answers::{Entry, EntryKind, Standing};
use line_grammar::calls::{LineList, Program, Programs};
use std::alloc::AllocError;

/// The figures of a session.
#[derive(Clone, Copy, PartialEq, Eq, Debug)]
pub struct Figures {
    /// Steps of the device.
    pub steps: u64,
    /// Requests that were submitted.
    pub requests: u64,
    /// Transactions that were closed.
    pub closed: u64,
    /// Transactions that were found when the image was recovered.
    pub found: u64,
}

// How many calls the first threads have.
fn calls_before(programs: &[Program], threads: u32) -> u128
    ensures value { result ≡ calls_before (map (λ p. p) programs.now) threads }
    ensures bound { result ≤ threads * 2 ^ 64 }
{
    match programs {
        [first, rest @ ..] if threads > 0 => {
            first.as_slice().len() as u128 + calls_before(rest, threads - 1)
        }
        _ => 0,
    }
}

// The line at this place; none behind the last.
fn line_in(lines: &LineList, place: u128) -> &[u8]
    ensures { result.now ≡ slice_index_or lines.now place [] }
{
    let lines = lines.as_slice();
    if place < lines.len() as u128 {
        lines[place as usize].as_slice()
    } else {
        b""
    }
}

// The line of a call.
fn line_at<'a>(programs: &Programs, lines: &'a LineList, thread: u32, call: u32) -> &'a [u8]
    requires { AreAscii lines.now }
    ensures line { result.now ≡ line_at programs.now lines.now thread call }
    ensures ascii { All is_ascii result.now }
{
    let before = calls_before(programs.as_slice(), thread.saturating_sub(1));
    line_in(lines, before + u128::from(call))
}

fn put_entry(
    out: &mut String,
    programs: &Programs,
    lines: &LineList,
    entry: &Entry,
) -> Result<(), AllocError>
    requires { AreAscii lines.now }
    ensures { OnOk result (string_bytes out.new ≡ string_bytes out.old ++ what_text programs.now lines.now entry.now.thread entry.now.call entry.now.what) }
{
    match &entry.what {
        EntryKind::Begin => Ok(()),
        EntryKind::End(reply) => {
            let line = line_at(programs, lines, entry.thread, entry.call);
            put_answer(out, entry.thread, line, reply)
        }
    }
}

fn put_answers(
    out: &mut String,
    programs: &Programs,
    lines: &LineList,
    history: &[Entry],
) -> Result<(), AllocError>
    requires { AreAscii lines.now }
    ensures { OnOk result (string_bytes out.new ≡ string_bytes out.old ++ answers_text programs.now lines.now history.now) }
{
    for entry in history {
        put_entry(out, programs, lines, entry)?;
    }
    Ok(())
}

// The lines of threads, the first of which has this number.
fn put_threads(out: &mut String, first: u32, standings: &[Standing]) -> Result<(), AllocError>
    requires { first + length standings.now < 2 ^ 32 }
    ensures { OnOk result (string_bytes out.new ≡ string_bytes out.old ++ threads_text first standings.now) }
{
    let mut thread = first;
    for standing in standings {
        put_thread(out, thread, standing)?;
        thread += 1;
    }
    Ok(())
}

/// Appends the lines of a session's report that stand before its tree: its steps and requests, a line for each call that
/// was answered, in the order of the history, one for each thread, and the closed and the found transactions.
#[tactic(auto, using(std::proofs::lemmas::List::append_assoc), unfolding(crate::specs::ReportText::session_lines))]
pub fn put_session(
    out: &mut String,
    programs: &Programs,
    lines: &LineList,
    figures: &Figures,
    history: &[Entry],
    standings: &[Standing],
) -> Result<(), AllocError>
    requires ascii { AreAscii lines.now }
    requires threads { 1 + length standings.now < 2 ^ 32 }
    ensures { OnOk result (string_bytes out.new ≡ string_bytes out.old ++ session_lines programs.now lines.now (record { steps = figures.now.steps; requests = figures.now.requests; closed = figures.now.closed; found = figures.now.found }) history.now standings.now) }
{
    put_count(out, "steps", figures.steps)?;
    put_count(out, "requests", figures.requests)?;
    put_answers(out, programs, lines, history)?;
    put_threads(out, 1, standings)?;
    put_count(out, "closed", figures.closed)?;
    put_count(out, "found", figures.found)
}
