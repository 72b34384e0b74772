//! The loops of the workers, each over one lock.
//!
//! A loop reads the flag that lets it end before its event, and ends only where the event then did nothing: what another loop
//! did before it raised the flag is seen. No loop holds its lock while it asks the gate. Where memory is refused to a step or
//! to its event, the loop says so and ends, and so do all others.
ghost use Rattle.std.specs.Prelude.{◌≤◌};

use crate::sides::flags::Flags;
use crate::sides::gate::Gate;
use crate::sides::host_side::HostSide;
use crate::sides::names::SessionNames;
use blk_base::NoMemory;
use host_answers::Step;
use order_model::{OrderedDev, Turn};
use rand_core::SeedableRng;
use rand_core::utils::NextWord;
use rand_pcg::Pcg32;
use schedulers::reassign::Scheduler;
use std::alloc::Global;
use std::sync::{Mutex, Wait};
use std::thread;
use thread_sides::{DeviceSide, OpensDevice, OpensScheduler, PartNames, SchedSide};

// Asks the gate, and yields where it does not let the worker pass.
fn passes<G: Gate>(gate: &G, who: u32, turn: &mut u64) -> bool {
    let passes = gate.pass(who, *turn);
    *turn = turn.wrapping_add(1);
    if !passes {
        thread::yield_now();
    }
    passes
}

// What a loop does behind a step.
#[derive(Clone, Copy)]
enum Next {
    Go,
    Yield,
    End,
}

// Whether the loop goes on. It yields first, if it is to.
fn goes_on(next: Next) -> bool {
    match next {
        Next::Go => true,
        Next::Yield => {
            thread::yield_now();
            true
        }
        Next::End => false,
    }
}

// Memory was refused, which all loops are told.
fn refused(flags: &Flags) -> Next {
    flags.raise_refused();
    Next::End
}

// Behind a step that did something or not. Where it did nothing, the loop ends if it may.
fn behind(flags: &Flags, step: Result<bool, NoMemory>, may_end: bool) -> Next {
    match step {
        Ok(true) => Next::Go,
        Ok(false) if may_end => Next::End,
        Ok(false) => Next::Yield,
        Err(NoMemory) => refused(flags),
    }
}

// Behind the step of a thread.
fn behind_call(flags: &Flags, step: Result<Step, NoMemory>) -> Next {
    let next = match &step {
        Ok(Step::Ended) => Next::End,
        Ok(Step::Waiting(_)) => Next::Yield,
        Ok(Step::NoMemory) | Err(NoMemory) => refused(flags),
        Ok(_) => Next::Go,
    };
    drop(step);
    next
}

// Behind the step of the commit actor, before which every program had ended or not.
fn behind_commit(flags: &Flags, step: Result<Turn, NoMemory>, done: bool) -> Next {
    match step {
        Ok(Turn::Did) => Next::Go,
        Ok(Turn::Idle | Turn::SessionFull) if done => {
            flags.raise_submitted();
            Next::End
        }
        Ok(Turn::NoMemory) | Err(NoMemory) => refused(flags),
        Ok(Turn::Idle | Turn::QueueFull | Turn::SessionFull) => Next::Yield,
    }
}

// Behind a step of the flush actor or of write-back.
fn behind_turn(flags: &Flags, step: Result<Turn, NoMemory>) -> Next {
    match step {
        Ok(Turn::Did) => Next::Go,
        Ok(Turn::Idle | Turn::QueueFull | Turn::SessionFull) => Next::Yield,
        Ok(Turn::NoMemory) | Err(NoMemory) => refused(flags),
    }
}

/// A caller: the steps of one thread, until its program is at its end.
pub fn caller_loop<N: SessionNames, H: Wait, G: Gate>(
    rt: &H,
    alloc: Global,
    side: &Mutex<HostSide<'_, N, H>>,
    flags: &Flags,
    gate: &G,
    thread: u32,
)
    requires { 1 ≤ thread }
{
    let mut turn = 0;
    for _ in rt.forever() {
        if flags.is_refused() {
            return;
        }
        if !passes(gate, thread, &mut turn) {
            continue;
        }
        let step = side.lock(rt).call(alloc, thread);
        if !goes_on(behind_call(flags, step)) {
            return;
        }
    }
}

/// The commit actor, until every program has ended and it has nothing left to do, or may do nothing any more.
pub fn commit_loop<N: SessionNames, H: Wait, G: Gate>(
    rt: &H,
    alloc: Global,
    side: &Mutex<HostSide<'_, N, H>>,
    flags: &Flags,
    gate: &G,
) {
    let mut turn = 0;
    for _ in rt.forever() {
        if flags.is_refused() {
            return;
        }
        if !passes(gate, 101, &mut turn) {
            continue;
        }
        let done = side.lock(rt).is_done();
        let step = side.lock(rt).commit(alloc);
        if !goes_on(behind_commit(flags, step, done)) {
            return;
        }
    }
}

// A step of the flush actor, or write-back where that did nothing. The loop ends where all was submitted before, and is
// answered.
fn flush_or_write_back<N: SessionNames, H: Wait>(
    rt: &H,
    side: &Mutex<HostSide<'_, N, H>>,
    flags: &Flags,
    picks: &mut Pcg32,
) -> Next {
    let submitted = flags.is_submitted();
    let step = side.lock(rt).flush_or_take();
    match behind_turn(flags, step) {
        Next::Yield => {}
        next => return next,
    }
    if submitted && side.lock(rt).is_answered() {
        flags.raise_flushed();
        return Next::End;
    }
    let word = picks.next_word();
    let step = side.lock(rt).writeback_word(word);
    behind_turn(flags, step)
}

/// The flush actor, and write-back where it has nothing to do, until all is submitted and answered.
pub fn flush_loop<N: SessionNames, H: Wait, G: Gate>(
    rt: &H,
    side: &Mutex<HostSide<'_, N, H>>,
    flags: &Flags,
    gate: &G,
    seed: u64,
) {
    let mut picks = Pcg32::seed_from_u64(seed);
    let mut turn = 0;
    for _ in rt.forever() {
        if flags.is_refused() {
            return;
        }
        if !passes(gate, 102, &mut turn) {
            continue;
        }
        if !goes_on(flush_or_write_back(rt, side, flags, &mut picks)) {
            return;
        }
    }
}

/// The scheduler takes requests.
pub fn accept_loop<S: Scheduler + OpensScheduler, N: PartNames, H: Wait, G: Gate>(
    rt: &H,
    side: &Mutex<SchedSide<'_, S, N, H>>,
    flags: &Flags,
    gate: &G,
) {
    let mut turn = 0;
    for _ in rt.forever() {
        if flags.is_refused() {
            return;
        }
        if !passes(gate, 103, &mut turn) {
            continue;
        }
        let flushed = flags.is_flushed();
        let step = side.lock(rt).accept();
        if !goes_on(behind(flags, step, flushed)) {
            return;
        }
    }
}

/// The scheduler sends commands.
pub fn dispatch_loop<S: Scheduler + OpensScheduler, N: PartNames, H: Wait, G: Gate>(
    rt: &H,
    side: &Mutex<SchedSide<'_, S, N, H>>,
    flags: &Flags,
    gate: &G,
    seed: u64,
) {
    let mut picks = Pcg32::seed_from_u64(seed);
    let mut turn = 0;
    for _ in rt.forever() {
        if flags.is_refused() {
            return;
        }
        if !passes(gate, 104, &mut turn) {
            continue;
        }
        let flushed = flags.is_flushed();
        let word = picks.next_word();
        let step = side.lock(rt).dispatch_word(word);
        if !goes_on(behind(flags, step, flushed)) {
            return;
        }
    }
}

// One command is taken, one transferred, and one completion sent, each under a lock of its own, where there is one. Whether
// there was any.
fn take_and_transfer<D: OrderedDev + OpensDevice, N: PartNames, H: Wait>(
    rt: &H,
    side: &Mutex<DeviceSide<'_, D, N, H>>,
    word: u32,
) -> Result<bool, NoMemory> {
    let received = side.lock(rt).receive();
    let received = received?;
    let transferred = side.lock(rt).transfer_word(word);
    let transferred = transferred?;
    let answered = side.lock(rt).answer();
    let answered = answered?;
    Ok(received || transferred || answered)
}

/// The device takes commands, transfers them and answers.
pub fn transfer_loop<D: OrderedDev + OpensDevice, N: PartNames, H: Wait, G: Gate>(
    rt: &H,
    side: &Mutex<DeviceSide<'_, D, N, H>>,
    flags: &Flags,
    gate: &G,
    seed: u64,
) {
    let mut picks = Pcg32::seed_from_u64(seed);
    let mut turn = 0;
    for _ in rt.forever() {
        if flags.is_refused() {
            return;
        }
        if !passes(gate, 105, &mut turn) {
            continue;
        }
        let flushed = flags.is_flushed();
        let word = picks.next_word();
        let step = take_and_transfer(rt, side, word);
        if !goes_on(behind(flags, step, flushed)) {
            return;
        }
    }
}

/// The device writes to the medium.
pub fn persist_loop<D: OrderedDev + OpensDevice, N: PartNames, H: Wait, G: Gate>(
    rt: &H,
    side: &Mutex<DeviceSide<'_, D, N, H>>,
    flags: &Flags,
    gate: &G,
    seed: u64,
) {
    let mut picks = Pcg32::seed_from_u64(seed);
    let mut turn = 0;
    for _ in rt.forever() {
        if flags.is_refused() {
            return;
        }
        if !passes(gate, 106, &mut turn) {
            continue;
        }
        let flushed = flags.is_flushed();
        let word = picks.next_word();
        let step = side.lock(rt).persist_word(word);
        if !goes_on(behind(flags, step, flushed)) {
            return;
        }
    }
}
