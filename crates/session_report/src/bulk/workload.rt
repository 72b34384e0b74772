//! The generated script.
ghost use Rattle.std.specs.Prelude.{◌≡◌, ◌≤◌, ◌++◌, [], ◌∷◌, map, IfOk};
ghost use Rattle.session_grammar.specs.WellFormed.{IsWellFormed};
ghost use Rattle.session_report.specs.bulk.Workload.{drawn_words, thread_calls, bulk_header, bulk_of};
ghost use Rattle.session_report.specs.bulk.code.Lines.{thread_lines, threads_lines};
ghost use Rattle.session_report.specs.declared.bulk.limits.TheConstants.{MOST_GENERATED};

use crate::bulk::word::{call_of, line_of};
use blk_base::NoMemory;
use line_grammar::calls::{LineList, Program, Programs};
use line_grammar::events::{EventLine, EventWord, Events, Steer, SteerLine, SteerList};
use minix_layout::DEFAULT_WIDTH;
use rand_core::SeedableRng;
use rand_core::utils::NextWord;
use rand_pcg::Pcg32;
use script_grammar::{DEFAULT_DEPTH, DEFAULT_QUEUE};
use session_grammar::{DEFAULT_SEED, SessionHeader, SessionScript};
use std::alloc::Global;

// The first words of the generator of a number, as many as the number says.
fn draw(alloc: Global, n: u32) -> Result<Vec<u32>, NoMemory>
    ensures { IfOk result (λ words. words.items ≡ drawn_words n) }
{
    let mut generator = Pcg32::seed_from_u64(n.into());
    let mut words = Vec::new(alloc);
    for _ in 0..n {
        words.push(generator.next_word())?;
    }
    Ok(words)
}

// The calls of a thread. Their lines go behind the others.
fn thread_of(
    alloc: Global,
    words: &[u32],
    thread: usize,
    lines: &mut LineList,
) -> Result<Program, NoMemory>
    ensures calls { IfOk result (λ p. p ≡ thread_calls words.now thread) }
    ensures lines { IfOk result (λ p. lines.new ≡ lines.old ++ thread_lines words.now thread) }
{
    let mut program = Program::new(alloc);
    for (place, word) in words.iter().enumerate() {
        if 1 + place % 4 == thread {
            lines.push(line_of(alloc, *word)?)?;
            program.push(call_of(alloc, *word)?)?;
        }
    }
    Ok(program)
}

// The calls of these threads. Their lines go behind the others.
fn threads_of(
    alloc: Global,
    words: &[u32],
    threads: &[usize],
    lines: &mut LineList,
) -> Result<Programs, NoMemory>
    ensures calls { IfOk result (λ ps. ps ≡ map (thread_calls words.now) threads.now) }
    ensures lines { IfOk result (λ ps. lines.new ≡ lines.old ++ threads_lines words.now threads.now) }
{
    let mut programs = Programs::new(alloc);
    for thread in threads {
        programs.push(thread_of(alloc, words, *thread, lines)?)?;
    }
    Ok(programs)
}

// One line of rounds.
fn rounds(alloc: Global, count: u32) -> Result<Events, NoMemory>
    ensures { IfOk result (λ es. es ≡ record { what = EventWord.Round; count = count } ∷ []) }
{
    let mut events = Events::new(alloc);
    events.push(EventLine {
        what: EventWord::Round,
        count,
    })?;
    Ok(events)
}

// One line that leaves so many steps to the recovery.
fn default_steps(alloc: Global, steps: u32) -> Result<SteerList, NoMemory>
    ensures { IfOk result (λ ls. ls ≡ (Steer.Default steps ∷ []) ∷ []) }
{
    let mut line = SteerLine::new(alloc);
    line.push(Steer::Default(steps))?;
    let mut lines = SteerList::new(alloc);
    lines.push(line)?;
    Ok(lines)
}

// A limit, and what the other header lines stand for where they are missing.
fn header() -> SessionHeader
    ensures { result ≡ bulk_header }
{
    SessionHeader {
        depth: DEFAULT_DEPTH,
        queue: DEFAULT_QUEUE,
        limit: 200_000,
        fail: None,
        cut: None,
        seed: DEFAULT_SEED,
        elevator: false,
        flash: None,
    }
}

/// The generated script of a number. It takes time and memory in proportion to it.
pub fn script_of_bulk(alloc: Global, n: u32) -> Result<SessionScript, NoMemory>
    requires some { 1 ≤ n }
    requires most { n ≤ MOST_GENERATED }
    ensures script { IfOk result (λ s. s ≡ bulk_of n) }
    ensures formed { IfOk result (λ s. IsWellFormed s) }
{
    let words = draw(alloc, n)?;
    let mut lines = LineList::new(alloc);
    let programs = threads_of(alloc, &words, &[1, 2, 3, 4], &mut lines)?;
    Ok(SessionScript {
        inodes: 512,
        zones: 4096,
        journal: 512,
        width: DEFAULT_WIDTH,
        wide: false,
        header: header(),
        programs,
        lines,
        events: rounds(alloc, 50 * n + 1000)?,
        recovers: default_steps(alloc, 5)?,
    })
}
