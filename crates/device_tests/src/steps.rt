//! What the tests of both devices share: commands, the steps that a test plays, and what a power cut leaves.
ghost use Rattle.std.specs.Prelude.{◌≡◌, ◌+◌, ◌<◌};
ghost use Rattle.device_tests.specs.Asked.{IsNext};

use blk_base::{Block, Image};
use order_model::{Command, Completion, OrderedDev, Part, Parts, Priority, ReadFault};
use std::fmt::Debug;
use std::process::Abort;

fn part_of(id: u64, block: u32, fill: u8) -> Part
    ensures { (result.id ≡ id) × (result.block ≡ block) }
{
    Part {
        id,
        block,
        body: Block::fill(fill),
    }
}

pub(crate) fn put(id: u64, block: u32, fill: u8, barrier: bool) -> Command
    requires { block < 4 }
    ensures { IsNext id (id + 1) result }
{
    Command {
        parts: Parts::one(part_of(id, block, fill)),
        priority: Priority::Ordered,
        barrier,
        flush: None,
    }
}

pub(crate) fn put_two(rt: &impl Abort, id: u64, block: u32) -> Command
    requires blocks { block < 3 }
    requires ids { id < 64 }
    ensures { IsNext id (id + 2) result }
{
    let mut parts = Parts::one(part_of(id, block, 0x11));
    assert!(rt; parts.push(part_of(id + 1, block + 1, 0x22)).is_ok());
    Command {
        parts,
        priority: Priority::Ordered,
        barrier: false,
        flush: None,
    }
}

pub(crate) fn flush(id: u64) -> Command
    ensures { IsNext id (id + 1) result }
{
    Command {
        parts: Parts::none(),
        priority: Priority::Ordered,
        barrier: false,
        flush: Some(id),
    }
}

// What a device is given, under the next ids.
#[derive(Clone, Copy)]
pub(crate) enum Give {
    // A put of this block, filled with this byte, and whether it is a barrier.
    Put(u32, u8, bool),
    // A command of two puts, of this block and the next one.
    Two(u32),
    // The same by the call that copies the command.
    Lent(u32),
    Flush,
}

// A command with the ids `from` to `to`.
#[derive(Drop)]
pub(crate) struct Sending {
    pub(crate) from: u64,
    pub(crate) to: u64,
    pub(crate) command: Command,
    ghost next: { IsNext from to command },
}

// What is given, from this id on.
pub(crate) fn asked(rt: &impl Abort, from: u64, give: Give) -> Sending
    requires { from < 64 }
    ensures { result.from ≡ from }
{
    match give {
        Give::Put(block, fill, barrier) => {
            assert!(rt; block < 4);
            Sending {
                from,
                to: from + 1,
                command: put(from, block, fill, barrier),
            }
        }
        Give::Two(block) | Give::Lent(block) => {
            assert!(rt; block < 3);
            Sending {
                from,
                to: from + 2,
                command: put_two(rt, from, block),
            }
        }
        Give::Flush => Sending {
            from,
            to: from + 1,
            command: flush(from),
        },
    }
}

// What a test does with a device.
#[derive(Clone, Copy)]
pub(crate) enum Step {
    CanTransfer,
    Transfer(u32),
    // The first transfer so often, and whether each was made.
    Transfers(u32),
    CanPersist,
    Persist(u32),
    // The first write so often, and whether each was made.
    Persists(u32),
    Next,
    Room,
    Quiet,
    Blocks,
    // Whether the block is filled with this byte.
    Read(u32, u8),
    Trace,
}

// What a step tells.
#[derive(Clone, Copy, PartialEq, Eq, Debug)]
pub(crate) enum Answer {
    Is(bool),
    Count(u32),
    Told(Option<Completion>),
    // What was taken, what was moved, what was sent, and the steps.
    Counts(usize, usize, usize, u64),
    // A read that fails.
    Fault,
    // A read that may not be asked for: the device is not quiet, or has no such block.
    Early,
}

use Answer::{Count, Counts, Early, Fault, Is, Told};

fn read<D: OrderedDev>(device: &mut D, block: u32, fill: u8) -> Answer {
    if !device.is_quiet() {
        return Early;
    }
    if block >= device.blocks() {
        return Early;
    }
    match device.read(block) {
        Ok(body) => Is(body == Block::fill(fill)),
        Err(ReadFault) => Fault,
    }
}

// The first transfer, or the first write, so often; and whether each was made.
fn repeats<D: OrderedDev>(device: &mut D, count: u32, writes: bool) -> bool {
    for _ in 0..count {
        let made = if writes {
            device.persist(0)
        } else {
            device.transfer(0)
        };
        if !made {
            return false;
        }
    }
    true
}

fn counts<D: OrderedDev>(device: &D) -> Answer {
    let trace = device.trace();
    let moved = trace.moved.as_slice().len();
    Counts(
        trace.took.len(),
        moved,
        trace.sent.as_slice().len(),
        trace.steps,
    )
}

// Does the step, and gives the answer that came.
fn done<D: OrderedDev>(device: &mut D, step: Step) -> Answer {
    match step {
        Step::CanTransfer => Count(device.can_transfer()),
        Step::Transfer(pick) => Is(device.transfer(pick)),
        Step::Transfers(count) => Is(repeats(device, count, false)),
        Step::CanPersist => Count(device.can_persist()),
        Step::Persist(pick) => Is(device.persist(pick)),
        Step::Persists(count) => Is(repeats(device, count, true)),
        Step::Next => Told(device.answer()),
        Step::Room => Is(device.room()),
        Step::Quiet => Is(device.is_quiet()),
        Step::Blocks => Count(device.blocks()),
        Step::Read(block, fill) => read(device, block, fill),
        Step::Trace => counts(device),
    }
}

// The device does the steps. The first with another answer than the one beside it ends the process.
pub(crate) fn plays<D: OrderedDev>(
    rt: &impl Abort,
    row: &str,
    device: &mut D,
    steps: &[(Step, Answer)],
) {
    for (at, step) in steps.iter().enumerate() {
        expect(rt, row, at, &done(device, step.0), &step.1);
    }
}

// Ends the process where the two differ, and tells both with the row and the place in it.
pub(crate) fn expect<T: PartialEq + Debug>(
    rt: &impl Abort,
    row: &str,
    at: usize,
    came: &T,
    wanted: &T,
) {
    assert_eq!(rt; came, wanted, "{row}: {at}");
}

// What a power cut leaves: the steps before it, the bytes that the four blocks are filled with, and the puts that they are of.
pub(crate) struct Left {
    pub(crate) steps: u64,
    pub(crate) fills: [u8; 4],
    pub(crate) origins: &'static [Option<u64>],
}

// The four blocks of the image are filled with these bytes.
fn is_filled(image: &Image, fills: [u8; 4]) -> bool {
    if image.len() != 4 {
        return false;
    }
    for b in 0..4 {
        if *image.block(b) != Block::fill(fills[b as usize]) {
            return false;
        }
    }
    true
}

// The power goes off behind so many steps of the row.
pub(crate) fn leaves<D: OrderedDev>(rt: &impl Abort, row: &str, at: usize, device: D, left: &Left) {
    let disk = device.cut();
    let is_filled = is_filled(&disk.image, left.fills);
    let came = (is_filled, disk.trace.steps, disk.origins.as_slice());
    let wanted = (true, left.steps, left.origins);
    expect(rt, row, at, &came, &wanted);
    drop(disk);
}
