//! Plays the rows of `data`: words and an input, beside how the program ends on them and what it writes. It prints how many rows
//! each file has, and of each row that wants something else what came. The rows of `wrong.txt` do, so that a player that sees
//! no difference is told. Then it is the program once more, for a stored run that ends with a fault: its script is refused, so
//! that nothing is printed and the status tells why.
//!
//! And tests of the top call: sources and sinks that fail, generated workloads, attempts of recovery, stores cut at each step, and
//! the words of a process; and a law on how long an input may be. And tests of sessions in threads below the top call: what is
//! left of four threads that sync their files, that workers run beside each other, that a run ends of which a thread is refused, and
//! what two of the sides do at the ends of their queues.
//!
//! Stands on `barrierfs_top`, on `session_report::bulk` for the script of a workload, and on `session_threads`; `sides` also on
//! the scheduler and the device that it drives.
#![tactic(auto)]

mod changes;
#[cfg(test)]
mod gates;
pub mod limits;
#[cfg(test)]
mod most;
#[cfg(test)]
mod recoveries;
#[cfg(test)]
mod refusals;
mod rows;
#[cfg(test)]
mod sessions;
#[cfg(test)]
mod sides;
#[cfg(test)]
mod stores;
#[cfg(test)]
mod streams;
#[cfg(test)]
mod told;
#[cfg(test)]
mod words;
#[cfg(test)]
mod workloads;

use crate::changes::RowFault;
use crate::rows::Row;
use barrierfs_top::run_program;
use std::process::ExitCode;
use std::rt::Files;
use std::sync::Wait;
use std::thread::Threads;
use std::{fs, io};

// The files of rows.
static FILES: [&str; 22] = [
    "wrong.txt",
    "requests.txt",
    "calls.txt",
    "trees.txt",
    "files.txt",
    "commits.txt",
    "barriers.txt",
    "syncs.txt",
    "failures.txt",
    "log-space.txt",
    "rules.txt",
    "threads.txt",
    "stores.txt",
    "workloads.txt",
    "images.txt",
    "damaged.txt",
    "words.txt",
    "scripts-refused.txt",
    "sessions-refused.txt",
    "stores-refused.txt",
    "examples.txt",
    "long.txt",
];

// Plays a row, and prints how the program ended and what it wrote where the row wants something else.
fn play<H: Threads + Wait + Sync + Print + AllocGlobal>(
    rt: &H,
    what: (&str, usize),
    text: &str,
    image: &mut Vec<u8>,
) -> io::Result<()> {
    let played = match Row::of(text) {
        Some(row) => row.play(rt, rt.alloc(), image),
        None => Err(RowFault::Text),
    };
    let (name, at) = what;
    match played {
        Ok(None) => Ok(()),
        Ok(Some(told)) => print!(rt; "{name}, row {at}: {told}"),
        Err(fault) => println!(rt; "{name}, row {at}: {fault:?}"),
    }
}

// Plays the rows of a file, and prints how many there are.
fn play_file<H: Threads + Wait + Sync + Print + Files + AllocGlobal>(
    rt: &H,
    name: &str,
) -> io::Result<()> {
    let text = fs::read_to_string(rt, name)?;
    let mut image = Vec::new(rt.alloc());
    let mut count = 0_usize;
    for row in text.split("-> ").skip(1) {
        count = count.saturating_add(1);
        play(rt, (name, count), row, &mut image)?;
    }
    println!(rt; "{name}: {count} rows")
}

fn main(rt: HostRuntime) -> ExitCode {
    for name in &FILES {
        if play_file(&rt, name).is_err() {
            return ExitCode::FAILURE;
        }
    }
    run_program(&rt)
}
