//! The words and the streams that a process has, and how it ends.
ghost use Rattle.std.specs.Prelude.{◌≡◌, ◌⊎◌, Option, is_some, IfErr};
ghost use Rattle.std.specs.Process.{exit_status};
ghost use Rattle.barrierfs_top.specs.Tasks.{lone_task_of, task_of};
ghost use Rattle.barrierfs_top.specs.Top.{status_of, stream_of};
ghost use Rattle.barrierfs_top.specs.TopEnd.{EndsSome};
ghost use Rattle.barrierfs_top.specs.declared.fault.TopFault.{TopFault};

use crate::command_line::Words;
use crate::fault::TopFault;
use crate::threads::{OpenGate, barrierfs};
use crate::top::{Outcome, alone, status};
use blk_base::{Sink, Source, StdSink, StdSource};
use session_threads::sides::Gate;
use std::alloc::Global;
use std::process::ExitCode;
use std::rt::Env;
use std::sync::Wait;
use std::thread::Threads;
use std::{env, io};

/// The words of the command line, without the program's name. One that is not UTF-8 makes them bad words.
pub fn given_words(rt: &(impl Env + AllocGlobal)) -> Result<Words, TopFault>
    ensures { IfErr result (λ fault. (fault ≡ TopFault.BadWords) ⊎ (fault ≡ TopFault.NoMemory)) }
{
    let alloc = rt.alloc();
    let mut words = Words::make(alloc);
    let args = match env::args(rt) {
        Ok(args) => args,
        Err(error) if error.kind() == io::ErrorKind::InvalidData => return Err(TopFault::BadWords),
        Err(_) => return Err(TopFault::NoMemory),
    };
    for word in args.skip(1) {
        if words.push(alloc, word.as_str()).is_err() {
            return Err(TopFault::NoMemory);
        }
    }
    Ok(words)
}

/// How the program ends.
#[derive(Drop, PartialEq, Eq, Debug)]
pub struct Ended {
    /// The exit status: 0 where there is no fault.
    pub status: u8,
    pub fault: Option<TopFault>,
    /// Whether a script was run to its end.
    pub reported: bool,
}

// How the program ends, where the top call ended so. The report is dropped by a call: a drop that is written out in place is expensive
// to prove.
fn let_go(outcome: Outcome) -> Ended
    ensures status { result.status ≡ outcome.status }
    ensures fault { result.fault ≡ outcome.fault }
    ensures reported { result.reported ≡ is_some outcome.report }
{
    let Outcome {
        status,
        fault,
        report,
    } = outcome;
    let reported = report.is_some();
    drop(report);
    Ended {
        status,
        fault,
        reported,
    }
}

/// Does what `alone` does, and lets its report go.
pub fn run_words<R: Source, W: Sink>(
    alloc: Global,
    words: &Words,
    src: &mut R,
    out: &mut W,
) -> Ended
    ensures status { result.status ≡ status_of result.fault }
    ensures ends { EndsSome (lone_task_of words.now) (stream_of R.left R.faults src.old src.new) (stream_of W.taken W.faults out.old out.new) result.reported result.fault }
{
    let_go(alone(alloc, words, src, out))
}

/// Does what `barrierfs` does, and lets its report go.
pub fn do_words<H: Threads + Wait + Sync, R: Source, W: Sink, G: Gate + Sync>(
    rt: &H,
    alloc: Global,
    words: &Words,
    src: &mut R,
    out: &mut W,
    gate: &G,
) -> Ended
    ensures status { result.status ≡ status_of result.fault }
    ensures ends { EndsSome (task_of words.now) (stream_of R.left R.faults src.old src.new) (stream_of W.taken W.faults out.old out.new) result.reported result.fault }
{
    let_go(barrierfs(rt, alloc, words, src, out, gate))
}

// Prints a fault on standard error, and behind bad words what `clap` says of them.
fn tell<H: Eprint + AllocGlobal>(rt: &H, fault: TopFault, words: &Words) {
    let _ = eprintln!(rt; "barrierfs: {fault}");
    if fault != TopFault::BadWords {
        return;
    }
    if let Some(text) = words.refusal(rt.alloc()) {
        let _ = eprint!(rt; "{text}");
    }
}

/// All that `main` does: hands the words and the standard streams to `barrierfs`, prints the fault on standard error where
/// there is one, and answers the status.
pub fn run_program<H: Threads + Wait + Sync + Env + Input + Print + Eprint + AllocGlobal>(
    rt: &H,
) -> ExitCode
    ensures { (fault : Option TopFault) × (exit_status result ≡ status_of fault) }
{
    let words = match given_words(rt) {
        Ok(words) => words,
        Err(fault) => {
            let _ = eprintln!(rt; "barrierfs: {fault}");
            return ExitCode::from(status(fault));
        }
    };
    let mut source = StdSource::new(rt.reader());
    let mut sink = StdSink::new(io::writer(rt));
    let ended = do_words(rt, rt.alloc(), &words, &mut source, &mut sink, &OpenGate);
    if let Some(fault) = ended.fault {
        tell(rt, fault, &words);
    }
    ExitCode::from(ended.status)
}
